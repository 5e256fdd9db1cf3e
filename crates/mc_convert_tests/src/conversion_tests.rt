use mc_charset::{Charset, is_well_formed};
use mc_convert::{
    ConvertFault, Repertoire, cap, convert, convert_exact, reinterpret, repertoire_of,
};
use std::alloc::Global;

/// All sets.
const SETS: [Charset; 8] = [
    Charset::Latin1,
    Charset::Ascii,
    Charset::Utf8mb3,
    Charset::Utf8mb4,
    Charset::Ucs2,
    Charset::Utf16,
    Charset::Utf32,
    Charset::Binary,
];

/// A text in one set, its repertoire, and the text in each set but binary, to which the bytes stay.
struct Row {
    why: &'static str,
    from: Charset,
    text: &'static [u8],
    class: Repertoire,
    latin1: &'static [u8],
    ascii: &'static [u8],
    utf8mb3: &'static [u8],
    utf8mb4: &'static [u8],
    ucs2: &'static [u8],
    utf16: &'static [u8],
    utf32: &'static [u8],
}

/// Those of U+0061, U+00E9, U+20AC, U+044F and U+1F600 that the set has, and a byte that is none.
const ROWS: [Row; 8] = [
    Row {
        why: "latin1 has three",
        from: Charset::Latin1,
        text: b"a\xE9\x80",
        class: Repertoire::Latin1,
        latin1: b"a\xE9\x80",
        ascii: b"a??",
        utf8mb3: b"a\xC3\xA9\xE2\x82\xAC",
        utf8mb4: b"a\xC3\xA9\xE2\x82\xAC",
        ucs2: b"\x00a\x00\xE9\x20\xAC",
        utf16: b"\x00a\x00\xE9\x20\xAC",
        utf32: b"\x00\x00\x00a\x00\x00\x00\xE9\x00\x00\x20\xAC",
    },
    Row {
        why: "ascii has one",
        from: Charset::Ascii,
        text: b"a",
        class: Repertoire::Ascii,
        latin1: b"a",
        ascii: b"a",
        utf8mb3: b"a",
        utf8mb4: b"a",
        ucs2: b"\x00a",
        utf16: b"\x00a",
        utf32: b"\x00\x00\x00a",
    },
    Row {
        why: "utf8mb3 has four",
        from: Charset::Utf8mb3,
        text: b"a\xC3\xA9\xE2\x82\xAC\xD1\x8F",
        class: Repertoire::Bmp,
        latin1: b"a\xE9\x80?",
        ascii: b"a???",
        utf8mb3: b"a\xC3\xA9\xE2\x82\xAC\xD1\x8F",
        utf8mb4: b"a\xC3\xA9\xE2\x82\xAC\xD1\x8F",
        ucs2: b"\x00a\x00\xE9\x20\xAC\x04\x4F",
        utf16: b"\x00a\x00\xE9\x20\xAC\x04\x4F",
        utf32: b"\x00\x00\x00a\x00\x00\x00\xE9\x00\x00\x20\xAC\x00\x00\x04\x4F",
    },
    Row {
        why: "utf8mb4 has all five",
        from: Charset::Utf8mb4,
        text: b"a\xC3\xA9\xE2\x82\xAC\xD1\x8F\xF0\x9F\x98\x80",
        class: Repertoire::Unicode,
        latin1: b"a\xE9\x80??",
        ascii: b"a????",
        utf8mb3: b"a\xC3\xA9\xE2\x82\xAC\xD1\x8F?",
        utf8mb4: b"a\xC3\xA9\xE2\x82\xAC\xD1\x8F\xF0\x9F\x98\x80",
        ucs2: b"\x00a\x00\xE9\x20\xAC\x04\x4F\x00?",
        utf16: b"\x00a\x00\xE9\x20\xAC\x04\x4F\xD8\x3D\xDE\x00",
        utf32: b"\x00\x00\x00a\x00\x00\x00\xE9\x00\x00\x20\xAC\x00\x00\x04\x4F\x00\x01\xF6\x00",
    },
    Row {
        why: "ucs2 has four",
        from: Charset::Ucs2,
        text: b"\x00a\x00\xE9\x20\xAC\x04\x4F",
        class: Repertoire::Bmp,
        latin1: b"a\xE9\x80?",
        ascii: b"a???",
        utf8mb3: b"a\xC3\xA9\xE2\x82\xAC\xD1\x8F",
        utf8mb4: b"a\xC3\xA9\xE2\x82\xAC\xD1\x8F",
        ucs2: b"\x00a\x00\xE9\x20\xAC\x04\x4F",
        utf16: b"\x00a\x00\xE9\x20\xAC\x04\x4F",
        utf32: b"\x00\x00\x00a\x00\x00\x00\xE9\x00\x00\x20\xAC\x00\x00\x04\x4F",
    },
    Row {
        why: "utf16 has all five",
        from: Charset::Utf16,
        text: b"\x00a\x00\xE9\x20\xAC\x04\x4F\xD8\x3D\xDE\x00",
        class: Repertoire::Unicode,
        latin1: b"a\xE9\x80??",
        ascii: b"a????",
        utf8mb3: b"a\xC3\xA9\xE2\x82\xAC\xD1\x8F?",
        utf8mb4: b"a\xC3\xA9\xE2\x82\xAC\xD1\x8F\xF0\x9F\x98\x80",
        ucs2: b"\x00a\x00\xE9\x20\xAC\x04\x4F\x00?",
        utf16: b"\x00a\x00\xE9\x20\xAC\x04\x4F\xD8\x3D\xDE\x00",
        utf32: b"\x00\x00\x00a\x00\x00\x00\xE9\x00\x00\x20\xAC\x00\x00\x04\x4F\x00\x01\xF6\x00",
    },
    Row {
        why: "utf32 has all five",
        from: Charset::Utf32,
        text: b"\x00\x00\x00a\x00\x00\x00\xE9\x00\x00\x20\xAC\x00\x00\x04\x4F\x00\x01\xF6\x00",
        class: Repertoire::Unicode,
        latin1: b"a\xE9\x80??",
        ascii: b"a????",
        utf8mb3: b"a\xC3\xA9\xE2\x82\xAC\xD1\x8F?",
        utf8mb4: b"a\xC3\xA9\xE2\x82\xAC\xD1\x8F\xF0\x9F\x98\x80",
        ucs2: b"\x00a\x00\xE9\x20\xAC\x04\x4F\x00?",
        utf16: b"\x00a\x00\xE9\x20\xAC\x04\x4F\xD8\x3D\xDE\x00",
        utf32: b"\x00\x00\x00a\x00\x00\x00\xE9\x00\x00\x20\xAC\x00\x00\x04\x4F\x00\x01\xF6\x00",
    },
    Row {
        why: "a byte from 80 on is no character",
        from: Charset::Binary,
        text: b"a\xE9",
        class: Repertoire::Bytes,
        latin1: b"a?",
        ascii: b"a?",
        utf8mb3: b"a?",
        utf8mb4: b"a?",
        ucs2: b"\x00a\x00?",
        utf16: b"\x00a\x00?",
        utf32: b"\x00\x00\x00a\x00\x00\x00?",
    },
];

/// The row's text in a set.
fn text_in(row: &Row, set: Charset) -> &'static [u8] {
    match set {
        Charset::Latin1 => row.latin1,
        Charset::Ascii => row.ascii,
        Charset::Utf8mb3 => row.utf8mb3,
        Charset::Utf8mb4 => row.utf8mb4,
        Charset::Ucs2 => row.ucs2,
        Charset::Utf16 => row.utf16,
        Charset::Utf32 => row.utf32,
        Charset::Binary => row.text,
    }
}

/// Whether the row's text becomes these bytes in another set.
fn becomes(alloc: Global, row: &Row, to: Charset, want: &[u8]) -> bool {
    if !is_well_formed(row.from, row.text) {
        return false;
    }
    match convert(alloc, row.from, to, row.text) {
        Ok(text) => text.as_slice() == want,
        Err(_) => false,
    }
}

/// Whether the text has the row's repertoire, which is within its set's.
fn has_class(row: &Row) -> bool {
    is_well_formed(row.from, row.text)
        && repertoire_of(row.from, row.text) == row.class
        && row.class.is_at_most(cap(row.from))
}

#[test]
fn converts_each_pair_of_sets(rt: HostRuntime) {
    for row in &ROWS {
        assert!(rt; has_class(row), "{}", row.why);
        for to in &SETS {
            assert!(rt;
                becomes(rt.alloc(), row, *to, text_in(row, *to)),
                "{}",
                row.why
            );
        }
    }
}

/// A text, the set that it is to go to, and the place of the first character that it would lose.
struct Exact {
    from: Charset,
    to: Charset,
    text: &'static [u8],
    lost: Option<u32>,
    why: &'static str,
}

/// Places count characters.
const EXACT: [Exact; 6] = [
    Exact {
        from: Charset::Utf8mb4,
        to: Charset::Latin1,
        text: b"a\xC3\xA9\xD1\x8F",
        lost: Some(2),
        why: "behind one of two bytes",
    },
    Exact {
        from: Charset::Utf8mb4,
        to: Charset::Ascii,
        text: b"\xC3\xA9a",
        lost: Some(0),
        why: "the first character",
    },
    Exact {
        from: Charset::Utf16,
        to: Charset::Ucs2,
        text: b"\x00a\xD8\x3D\xDE\x00",
        lost: Some(1),
        why: "a surrogate pair",
    },
    Exact {
        from: Charset::Latin1,
        to: Charset::Ascii,
        text: b"ab\x80\xE9",
        lost: Some(2),
        why: "the first of two",
    },
    Exact {
        from: Charset::Binary,
        to: Charset::Latin1,
        text: b"a\xE9",
        lost: Some(1),
        why: "a byte is no character",
    },
    Exact {
        from: Charset::Utf8mb4,
        to: Charset::Latin1,
        text: b"\xE2\x82\xAC",
        lost: None,
        why: "the euro sign",
    },
];

/// Whether the text loses the character that the row says, or, as the euro sign, is one byte.
fn is_exact(alloc: Global, row: &Exact) -> bool {
    if row.text.len() > 100 || !is_well_formed(row.from, row.text) {
        return false;
    }
    match convert_exact(alloc, row.from, row.to, row.text) {
        Ok(text) => row.lost.is_none() && text.as_slice() == b"\x80".as_slice(),
        Err(ConvertFault::Lossy { place }) => row.lost == Some(place),
        Err(_) => false,
    }
}

#[test]
fn counts_lost_characters_from_0(rt: HostRuntime) {
    for row in &EXACT {
        assert!(rt; is_exact(rt.alloc(), row), "{}", row.why);
    }
}

/// Bytes taken for a text of a set, and that text; no bytes where they are malformed.
struct Taken {
    to: Charset,
    bytes: &'static [u8],
    text: &'static [u8],
    why: &'static str,
}

/// Zero bytes stand in front of the first unit that is cut.
const TAKEN: [Taken; 12] = [
    Taken {
        to: Charset::Ucs2,
        bytes: b"a",
        text: b"\x00a",
        why: "one byte",
    },
    Taken {
        to: Charset::Ucs2,
        bytes: b"\x04\x4F\xAC",
        text: b"\x00\x04\x4F\xAC",
        why: "three bytes",
    },
    Taken {
        to: Charset::Ucs2,
        bytes: b"a\xD8\x00",
        text: b"",
        why: "a surrogate behind the padded character",
    },
    Taken {
        to: Charset::Utf16,
        bytes: b"\xD8",
        text: b"\x00\xD8",
        why: "a padded byte is no surrogate",
    },
    Taken {
        to: Charset::Utf16,
        bytes: b"a\xD8\x3D\xDE\x00",
        text: b"\x00a\xD8\x3D\xDE\x00",
        why: "five bytes",
    },
    Taken {
        to: Charset::Utf16,
        bytes: b"a\xD8\x3D",
        text: b"",
        why: "a lone high surrogate",
    },
    Taken {
        to: Charset::Utf32,
        bytes: b"a",
        text: b"\x00\x00\x00a",
        why: "three zero bytes",
    },
    Taken {
        to: Charset::Utf32,
        bytes: b"\x20\xAC",
        text: b"\x00\x00\x20\xAC",
        why: "two zero bytes",
    },
    Taken {
        to: Charset::Utf32,
        bytes: b"\x01\xF6\x00",
        text: b"\x00\x01\xF6\x00",
        why: "one zero byte",
    },
    Taken {
        to: Charset::Utf32,
        bytes: b"\x11\x00\x00",
        text: b"",
        why: "above 10FFFF",
    },
    Taken {
        to: Charset::Utf8mb4,
        bytes: b"\xC3\xA9",
        text: b"\xC3\xA9",
        why: "no padding",
    },
    Taken {
        to: Charset::Utf8mb4,
        bytes: b"\xC3",
        text: b"",
        why: "a spelling that is cut",
    },
];

/// Whether the bytes are taken for the row's text.
fn is_taken(alloc: Global, row: &Taken) -> bool {
    match reinterpret(alloc, row.to, row.bytes) {
        Ok(Some(text)) => !row.text.is_empty() && text.as_slice() == row.text,
        Ok(None) => row.text.is_empty(),
        Err(_) => false,
    }
}

#[test]
fn pads_on_the_left(rt: HostRuntime) {
    for row in &TAKEN {
        assert!(rt; is_taken(rt.alloc(), row), "{}", row.why);
    }
}
