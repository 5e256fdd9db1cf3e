use mc_base::Text;
use mc_charset::{
    CharAt, Charset, CollId, bin_of, charset_by_name, charset_name, has_char, is_unicode,
    is_well_formed, next_char, put_char, same_set,
};

/// The one character that a text is, or `None` where no spelling begins it.
struct Row {
    set: Charset,
    text: &'static [u8],
    code: Option<u32>,
    why: &'static str,
}

/// Table 3-7 of the Unicode Standard at both ends of each row and one past them, and the ends of
/// the other sets.
const ROWS: [Row; 40] = [
    Row {
        set: Charset::Utf8mb4,
        text: &[0x00],
        code: Some(0x0000),
        why: "row 1, first",
    },
    Row {
        set: Charset::Utf8mb4,
        text: &[0x7F],
        code: Some(0x007F),
        why: "row 1, last",
    },
    Row {
        set: Charset::Utf8mb4,
        text: &[0x80],
        code: None,
        why: "a byte behind no first one",
    },
    Row {
        set: Charset::Utf8mb4,
        text: &[0xC1, 0xBF],
        code: None,
        why: "an overlong spelling of two bytes",
    },
    Row {
        set: Charset::Utf8mb4,
        text: &[0xC2, 0x80],
        code: Some(0x0080),
        why: "row 2, first",
    },
    Row {
        set: Charset::Utf8mb4,
        text: &[0xDF, 0xBF],
        code: Some(0x07FF),
        why: "row 2, last",
    },
    Row {
        set: Charset::Utf8mb4,
        text: &[0xE0, 0x9F, 0xBF],
        code: None,
        why: "an overlong spelling of three bytes",
    },
    Row {
        set: Charset::Utf8mb4,
        text: &[0xE0, 0xA0, 0x80],
        code: Some(0x0800),
        why: "row 3, first",
    },
    Row {
        set: Charset::Utf8mb4,
        text: &[0xE0, 0xBF, 0xBF],
        code: Some(0x0FFF),
        why: "row 3, last",
    },
    Row {
        set: Charset::Utf8mb4,
        text: &[0xE1, 0x80, 0x80],
        code: Some(0x1000),
        why: "row 4, first",
    },
    Row {
        set: Charset::Utf8mb4,
        text: &[0xEC, 0xBF, 0xBF],
        code: Some(0xCFFF),
        why: "row 4, last",
    },
    Row {
        set: Charset::Utf8mb4,
        text: &[0xED, 0x80, 0x80],
        code: Some(0xD000),
        why: "row 5, first",
    },
    Row {
        set: Charset::Utf8mb4,
        text: &[0xED, 0x9F, 0xBF],
        code: Some(0xD7FF),
        why: "row 5, last",
    },
    Row {
        set: Charset::Utf8mb4,
        text: &[0xED, 0xA0, 0x80],
        code: None,
        why: "a surrogate",
    },
    Row {
        set: Charset::Utf8mb4,
        text: &[0xEE, 0x80, 0x80],
        code: Some(0xE000),
        why: "row 6, first",
    },
    Row {
        set: Charset::Utf8mb4,
        text: &[0xEF, 0xBF, 0xBF],
        code: Some(0xFFFF),
        why: "row 6, last",
    },
    Row {
        set: Charset::Utf8mb4,
        text: &[0xF0, 0x8F, 0xBF, 0xBF],
        code: None,
        why: "an overlong spelling of four bytes",
    },
    Row {
        set: Charset::Utf8mb4,
        text: &[0xF0, 0x90, 0x80, 0x80],
        code: Some(0x10000),
        why: "row 7, first",
    },
    Row {
        set: Charset::Utf8mb4,
        text: &[0xF0, 0xBF, 0xBF, 0xBF],
        code: Some(0x3FFFF),
        why: "row 7, last",
    },
    Row {
        set: Charset::Utf8mb4,
        text: &[0xF1, 0x80, 0x80, 0x80],
        code: Some(0x40000),
        why: "row 8, first",
    },
    Row {
        set: Charset::Utf8mb4,
        text: &[0xF3, 0xBF, 0xBF, 0xBF],
        code: Some(0xFFFFF),
        why: "row 8, last",
    },
    Row {
        set: Charset::Utf8mb4,
        text: &[0xF4, 0x80, 0x80, 0x80],
        code: Some(0x100000),
        why: "row 9, first",
    },
    Row {
        set: Charset::Utf8mb4,
        text: &[0xF4, 0x8F, 0xBF, 0xBF],
        code: Some(0x10FFFF),
        why: "row 9, last",
    },
    Row {
        set: Charset::Utf8mb4,
        text: &[0xF4, 0x90, 0x80, 0x80],
        code: None,
        why: "above 10FFFF",
    },
    Row {
        set: Charset::Utf8mb3,
        text: &[0xEF, 0xBF, 0xBF],
        code: Some(0xFFFF),
        why: "utf8mb3, last",
    },
    Row {
        set: Charset::Utf8mb3,
        text: &[0xF0, 0x90, 0x80, 0x80],
        code: None,
        why: "utf8mb3 lacks U+10000",
    },
    Row {
        set: Charset::Latin1,
        text: &[0x80],
        code: Some(0x20AC),
        why: "the euro sign",
    },
    Row {
        set: Charset::Latin1,
        text: &[0x81],
        code: Some(0x0081),
        why: "a gap of code page 1252",
    },
    Row {
        set: Charset::Latin1,
        text: &[0xFF],
        code: Some(0x00FF),
        why: "latin1, last",
    },
    Row {
        set: Charset::Ascii,
        text: &[0x80],
        code: None,
        why: "ascii ends at 7F",
    },
    Row {
        set: Charset::Binary,
        text: &[0xFF],
        code: Some(0xFF),
        why: "a byte is its number",
    },
    Row {
        set: Charset::Ucs2,
        text: &[0xD7, 0xFF],
        code: Some(0xD7FF),
        why: "the last before the surrogates",
    },
    Row {
        set: Charset::Ucs2,
        text: &[0xD8, 0x00],
        code: None,
        why: "a surrogate",
    },
    Row {
        set: Charset::Ucs2,
        text: &[0xE0, 0x00],
        code: Some(0xE000),
        why: "the first behind the surrogates",
    },
    Row {
        set: Charset::Utf16,
        text: &[0xD8, 0x3D, 0xDE, 0x00],
        code: Some(0x1F600),
        why: "the surrogate pair of U+1F600",
    },
    Row {
        set: Charset::Utf16,
        text: &[0xDB, 0xFF, 0xDF, 0xFF],
        code: Some(0x10FFFF),
        why: "the last surrogate pair",
    },
    Row {
        set: Charset::Utf16,
        text: &[0xD8, 0x3D, 0x00, 0x41],
        code: None,
        why: "a lone high surrogate",
    },
    Row {
        set: Charset::Utf32,
        text: &[0x00, 0x10, 0xFF, 0xFF],
        code: Some(0x10FFFF),
        why: "utf32, last",
    },
    Row {
        set: Charset::Utf32,
        text: &[0x00, 0x00, 0xD8, 0x00],
        code: None,
        why: "a surrogate",
    },
    Row {
        set: Charset::Utf32,
        text: &[0x00, 0x11, 0x00, 0x00],
        code: None,
        why: "above 10FFFF",
    },
];

#[test]
fn begins_with(rt: HostRuntime) {
    for row in &ROWS {
        let answer = match row.code {
            Some(code) => CharAt::Char {
                code,
                len: row.text.len(),
            },
            None => CharAt::Bad,
        };
        assert_eq!(rt; next_char(row.set, row.text), answer, "{}", row.why);
    }
}

#[test]
fn puts_what_it_reads(rt: HostRuntime) {
    for row in &ROWS {
        if let Some(code) = row.code {
            let mut out = Text::new(rt.alloc());
            assert!(rt; put_char(row.set, code, &mut out).is_ok(), "{}", row.why);
            assert_eq!(rt; out.as_slice(), row.text, "{}", row.why);
        }
    }
}

#[test]
fn names_its_sets(rt: HostRuntime) {
    assert_eq!(rt; charset_by_name(b"UTF8"), Some(Charset::Utf8mb3));
    assert_eq!(rt; charset_by_name(b"utf9"), None);
    assert_eq!(rt; charset_name(Charset::Utf16), "utf16");
    assert_eq!(rt; bin_of(Charset::Utf32), CollId(7));
    assert!(rt; is_unicode(Charset::Ucs2));
    assert!(rt; same_set(Charset::Ucs2, Charset::Ucs2));
}

#[test]
fn has_the_euro_sign(rt: HostRuntime) {
    assert!(rt; has_char(Charset::Latin1, 0x20AC));
    assert!(rt; is_well_formed(Charset::Utf8mb4, &[0xE2, 0x82, 0xAC]));
}
