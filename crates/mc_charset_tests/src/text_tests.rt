use mc_base::Text;
use mc_charset::{Charset, PutChar, byte_of, char_count, char_start, is_well_formed, put_char};

/// How many characters a text has, and where character `k` begins.
struct Counted {
    set: Charset,
    text: &'static [u8],
    k: u32,
    count: u32,
    start: usize,
    why: &'static str,
}

const COUNTED: [Counted; 6] = [
    Counted {
        set: Charset::Utf8mb4,
        text: b"a\xC3\xA9\xE2\x82\xAC\xF0\x9F\x98\x80",
        k: 2,
        count: 4,
        start: 3,
        why: "one character of each length",
    },
    Counted {
        set: Charset::Utf8mb4,
        text: b"a\xC3\xA9\xE2\x82\xAC\xF0\x9F\x98\x80",
        k: 9,
        count: 4,
        start: 10,
        why: "past the end",
    },
    Counted {
        set: Charset::Utf8mb3,
        text: b"\xE2\x82\xAC\xC3\xA9",
        k: 1,
        count: 2,
        start: 3,
        why: "utf8mb3",
    },
    Counted {
        set: Charset::Utf16,
        text: b"\x00a\xD8\x3D\xDE\x00\x20\xAC",
        k: 2,
        count: 3,
        start: 6,
        why: "a surrogate pair is one character",
    },
    Counted {
        set: Charset::Utf32,
        text: b"\x00\x00\x00a\x00\x01\xF6\x00",
        k: 1,
        count: 2,
        start: 4,
        why: "utf32",
    },
    Counted {
        set: Charset::Binary,
        text: b"\xC3\xA9",
        k: 1,
        count: 2,
        start: 1,
        why: "bytes",
    },
];

#[test]
fn counts_characters(rt: HostRuntime) {
    for row in &COUNTED {
        assert!(rt;
            row.text.len() < 100 && is_well_formed(row.set, row.text),
            "{}",
            row.why
        );
        assert_eq!(rt; char_count(row.set, row.text), row.count, "{}", row.why);
        assert_eq!(rt;
            char_start(row.set, row.text, row.k),
            row.start,
            "{}",
            row.why
        );
    }
}

/// A malformed text of a set, and a code point that the set lacks; latin1 and binary have no
/// malformed text.
const REFUSED: [(Charset, &[u8], u32); 8] = [
    (Charset::Latin1, b"", 0x0100),
    (Charset::Ascii, b"a\x80", 0x80),
    (Charset::Utf8mb3, b"\xF0\x9F\x98\x80", 0x10000),
    (Charset::Utf8mb4, b"\xF4\x90\x80\x80", 0xD800),
    (Charset::Ucs2, b"\xD8\x3D\xDE\x00", 0x10000),
    (Charset::Utf16, b"\x00a\xDE\x00", 0xDFFF),
    (Charset::Utf32, b"\x00\x00\xDE\x00", 0x110000),
    (Charset::Binary, b"", 0x100),
];

#[test]
fn refuses_texts_and_characters(rt: HostRuntime) {
    for (set, malformed, missing) in &REFUSED {
        let mut out = Text::new(rt.alloc());
        assert!(rt;
            put_char(*set, *missing, &mut out) == Err(PutChar::Unfit),
            "{missing}"
        );
        assert!(rt;
            is_well_formed(*set, malformed) == malformed.is_empty(),
            "{missing}"
        );
        assert_eq!(rt;
            byte_of(*set, 0x61) == Some(0x61),
            matches!(
                set,
                Charset::Latin1
                    | Charset::Ascii
                    | Charset::Utf8mb3
                    | Charset::Utf8mb4
                    | Charset::Binary
            )
        );
    }
}
