use crate::calls::{Call, answer};
use mc_base::{NoMemory, Text};
use mc_charset::{Charset, is_well_formed};
use mc_strfun::Side;
use std::alloc::Global;

/// A call on texts of a set, and the text that it gives, if any.
#[derive(Drop)]
struct Row {
    why: &'static str,
    call: Call,
    text: &'static [u8],
    second: &'static [u8],
    third: &'static [u8],
    wanted: Option<&'static [u8]>,
}

/// Texts in utf8mb4.
const ROWS: [Row; 23] = [
    Row {
        why: "two texts one after the other",
        call: Call::Concat,
        text: b"ab",
        second: b"c",
        third: b"",
        wanted: Some(b"abc"),
    },
    Row {
        why: "the separator between two texts",
        call: Call::ConcatWs,
        text: b"ab",
        second: b"c",
        third: b", ",
        wanted: Some(b"ab, c"),
    },
    Row {
        why: "from the end, so many characters",
        call: Call::Substring(-3, Some(2)),
        text: b"abcd",
        second: b"",
        third: b"",
        wanted: Some(b"bc"),
    },
    Row {
        why: "from the second character on",
        call: Call::Substring(2, None),
        text: b"a\xC3\xB1b",
        second: b"",
        third: b"",
        wanted: Some(b"\xC3\xB1b"),
    },
    Row {
        why: "there is no character 0",
        call: Call::Substring(0, None),
        text: b"abc",
        second: b"",
        third: b"",
        wanted: Some(b""),
    },
    Row {
        why: "nor one before the first",
        call: Call::Substring(-4, None),
        text: b"abc",
        second: b"",
        third: b"",
        wanted: Some(b""),
    },
    Row {
        why: "the first two characters",
        call: Call::Left(2),
        text: b"a\xC3\xB1b",
        second: b"",
        third: b"",
        wanted: Some(b"a\xC3\xB1"),
    },
    Row {
        why: "the last two characters",
        call: Call::Right(2),
        text: b"a\xC3\xB1b",
        second: b"",
        third: b"",
        wanted: Some(b"\xC3\xB1b"),
    },
    Row {
        why: "none where there are fewer than one",
        call: Call::Right(-1),
        text: b"abc",
        second: b"",
        third: b"",
        wanted: Some(b""),
    },
    Row {
        why: "copies at both sides, the leading ones first",
        call: Call::Trim(Side::Both),
        text: b"ababa",
        second: b"aba",
        third: b"",
        wanted: Some(b"ba"),
    },
    Row {
        why: "whole copies alone",
        call: Call::Trim(Side::Leading),
        text: b"xyxyx",
        second: b"xy",
        third: b"",
        wanted: Some(b"x"),
    },
    Row {
        why: "those at the end",
        call: Call::Trim(Side::Trailing),
        text: b"xxaxx",
        second: b"x",
        third: b"",
        wanted: Some(b"xxa"),
    },
    Row {
        why: "the last copy of the pad is cut",
        call: Call::Lpad(6),
        text: b"abc",
        second: b"xy",
        third: b"",
        wanted: Some(b"xyxabc"),
    },
    Row {
        why: "cut to as many characters as are asked for",
        call: Call::Lpad(2),
        text: b"abc",
        second: b"",
        third: b"",
        wanted: Some(b"ab"),
    },
    Row {
        why: "an empty pad fills nothing",
        call: Call::Lpad(4),
        text: b"abc",
        second: b"",
        third: b"",
        wanted: None,
    },
    Row {
        why: "no text has fewer than 0 characters",
        call: Call::Rpad(-1),
        text: b"abc",
        second: b"x",
        third: b"",
        wanted: None,
    },
    Row {
        why: "behind the text",
        call: Call::Rpad(3),
        text: b"7",
        second: b"xy",
        third: b"",
        wanted: Some(b"7xy"),
    },
    Row {
        why: "copies",
        call: Call::Repeat(3),
        text: b"ab",
        second: b"",
        third: b"",
        wanted: Some(b"ababab"),
    },
    Row {
        why: "no copies",
        call: Call::Repeat(-1),
        text: b"ab",
        second: b"",
        third: b"",
        wanted: Some(b""),
    },
    Row {
        why: "the characters backwards",
        call: Call::Reverse,
        text: b"a\xC3\xB1\xE2\x82\xAC",
        second: b"",
        third: b"",
        wanted: Some(b"\xE2\x82\xAC\xC3\xB1a"),
    },
    Row {
        why: "copies from the left, without overlap",
        call: Call::Replace,
        text: b"aaaab",
        second: b"aa",
        third: b"x",
        wanted: Some(b"xxb"),
    },
    Row {
        why: "an empty text is in no place",
        call: Call::Replace,
        text: b"abc",
        second: b"",
        third: b"x",
        wanted: Some(b"abc"),
    },
    Row {
        why: "two digits a byte",
        call: Call::Hex,
        text: b"\xC3\x9FK",
        second: b"",
        third: b"",
        wanted: Some(b"C39F4B"),
    },
];

/// Texts in utf16.
const PAIRS: [Row; 6] = [
    Row {
        why: "a surrogate pair is one character",
        call: Call::Reverse,
        text: b"\0a\xD8=\xDE\0",
        second: b"",
        third: b"",
        wanted: Some(b"\xD8=\xDE\0\0a"),
    },
    Row {
        why: "it is taken whole",
        call: Call::Left(1),
        text: b"\xD8=\xDE\0\0a",
        second: b"",
        third: b"",
        wanted: Some(b"\xD8=\xDE\0"),
    },
    Row {
        why: "it counts once from the end",
        call: Call::Substring(-2, Some(1)),
        text: b"\0a\xD8=\xDE\0\0b",
        second: b"",
        third: b"",
        wanted: Some(b"\xD8=\xDE\0"),
    },
    Row {
        why: "bytes across two characters are no copy",
        call: Call::Replace,
        text: b"a\0b\0",
        second: b"\0b",
        third: b"\0x",
        wanted: Some(b"a\0b\0"),
    },
    Row {
        why: "another pair with one half alike is no copy",
        call: Call::Trim(Side::Both),
        text: b"\xD8=\xDE\0\xD8=\xDE\x01\xD8=\xDE\0",
        second: b"\xD8=\xDE\0",
        third: b"",
        wanted: Some(b"\xD8=\xDE\x01"),
    },
    Row {
        why: "a pair as pad",
        call: Call::Rpad(2),
        text: b"\0a",
        second: b"\xD8=\xDE\0\0b",
        third: b"",
        wanted: Some(b"\0a\xD8=\xDE\0"),
    },
];

/// Whether the call gives what is wanted, of texts of the set that are short.
fn gives(alloc: Global, set: Charset, row: &Row) -> Result<bool, NoMemory> {
    let text = Text::from_slice(alloc, row.text)?;
    let second = Text::from_slice(alloc, row.second)?;
    let third = Text::from_slice(alloc, row.third)?;
    if text.len() > 100 || second.len() > 100 {
        return Ok(false);
    }
    let well_formed = is_well_formed(set, text.as_slice())
        && is_well_formed(set, second.as_slice())
        && is_well_formed(set, third.as_slice());
    if !well_formed {
        return Ok(false);
    }
    match answer(alloc, set, row.call, &text, &second, &third) {
        Ok(None) => Ok(row.wanted.is_none()),
        Ok(Some(given)) => Ok(row.wanted == Some(given.as_slice())),
        Err(NoMemory) => Err(NoMemory),
    }
}

#[test]
fn each_call_gives_what_was_worked_out(rt: HostRuntime) {
    for row in &ROWS {
        assert!(rt;
            gives(rt.alloc(), Charset::Utf8mb4, row) == Ok(true),
            "{}",
            row.why
        );
    }
}

#[test]
fn surrogate_pairs_are_characters(rt: HostRuntime) {
    for row in &PAIRS {
        assert!(rt;
            gives(rt.alloc(), Charset::Utf16, row) == Ok(true),
            "{}",
            row.why
        );
    }
}
