use mc_charset::{Charset, is_well_formed};
use mc_convert::{convert, convert_into, keeps_bytes};
use std::alloc::Global;

/// Two texts of two sets, and what they are in a third one, one behind the other.
struct Joined {
    first: Charset,
    first_text: &'static [u8],
    second: Charset,
    second_text: &'static [u8],
    to: Charset,
    text: &'static [u8],
    why: &'static str,
}

/// Texts that are copied, texts of single characters, and texts of more than eight bytes of ASCII
/// beside other characters.
const JOINED: [Joined; 5] = [
    Joined {
        first: Charset::Latin1,
        first_text: b"a\xE9",
        second: Charset::Utf8mb4,
        second_text: b"\xC3\xA9\xD1\x8F",
        to: Charset::Latin1,
        text: b"a\xE9\xE9?",
        why: "a copied text in front",
    },
    Joined {
        first: Charset::Utf8mb4,
        first_text: b"Stra\xC3\x9Fenbahn und Gr\xC3\xBC\xC3\x9Fe, gestern",
        second: Charset::Utf8mb4,
        second_text: b"12345678\xC3\xA9 2345678",
        to: Charset::Latin1,
        text: b"Stra\xDFenbahn und Gr\xFC\xDFe, gestern12345678\xE9 2345678",
        why: "eight bytes of ASCII before and behind others",
    },
    Joined {
        first: Charset::Utf8mb4,
        first_text: b"12345678\xD1\x8Fbcdefgh",
        second: Charset::Ascii,
        second_text: b"123456789",
        to: Charset::Ucs2,
        text: b"\x001\x002\x003\x004\x005\x006\x007\x008\x04\x4F\x00b\x00c\x00d\x00e\x00f\x00g\x00h\
\x001\x002\x003\x004\x005\x006\x007\x008\x009",
        why: "two bytes each",
    },
    Joined {
        first: Charset::Binary,
        first_text: b"ab\xFF",
        second: Charset::Ucs2,
        second_text: b"\x20\xAC",
        to: Charset::Utf8mb3,
        text: b"ab?\xE2\x82\xAC",
        why: "a byte that is no character in front",
    },
    Joined {
        first: Charset::Utf16,
        first_text: b"\xD8\x3D\xDE\x00",
        second: Charset::Latin1,
        second_text: b"\xE9",
        to: Charset::Binary,
        text: b"\xD8\x3D\xDE\x00\xE9",
        why: "bytes stay",
    },
];

/// Whether the two texts become that one.
fn is_joined(alloc: Global, row: &Joined) -> bool {
    if !is_well_formed(row.first, row.first_text) || !is_well_formed(row.second, row.second_text) {
        return false;
    }
    let Ok(mut text) = convert(alloc, row.first, row.to, row.first_text) else {
        return false;
    };
    match convert_into(row.second, row.to, row.second_text, &mut text) {
        Ok(()) => text.as_slice() == row.text,
        Err(_) => false,
    }
}

#[test]
fn joins_texts_of_two_sets(rt: HostRuntime) {
    for row in &JOINED {
        assert!(rt; is_joined(rt.alloc(), row), "{}", row.why);
    }
}

/// Two sets, and whether the second one has the texts of the first.
struct Kept {
    from: Charset,
    to: Charset,
    kept: bool,
    why: &'static str,
}

const KEPT: [Kept; 8] = [
    Kept {
        from: Charset::Utf8mb3,
        to: Charset::Utf8mb4,
        kept: true,
        why: "one to three bytes are the same",
    },
    Kept {
        from: Charset::Utf8mb4,
        to: Charset::Utf8mb3,
        kept: false,
        why: "four bytes are not",
    },
    Kept {
        from: Charset::Ucs2,
        to: Charset::Utf16,
        kept: true,
        why: "units without surrogates",
    },
    Kept {
        from: Charset::Utf16,
        to: Charset::Ucs2,
        kept: false,
        why: "surrogate pairs",
    },
    Kept {
        from: Charset::Ascii,
        to: Charset::Latin1,
        kept: true,
        why: "ASCII in latin1",
    },
    Kept {
        from: Charset::Latin1,
        to: Charset::Utf8mb4,
        kept: false,
        why: "latin1 above 7F",
    },
    Kept {
        from: Charset::Utf32,
        to: Charset::Binary,
        kept: true,
        why: "to binary bytes stay",
    },
    Kept {
        from: Charset::Binary,
        to: Charset::Latin1,
        kept: false,
        why: "bytes from 80 on become question marks",
    },
];

#[test]
fn knows_which_sets_keep_bytes(rt: HostRuntime) {
    for row in &KEPT {
        assert!(rt; keeps_bytes(row.from, row.to) == row.kept, "{}", row.why);
    }
}
