use mc_base::{NoMemory, Steps, Text};
use mc_charset::{Charset, CollId, is_well_formed};
use mc_like::compile;
use mc_order::BinCollation;
use std::alloc::Global;

/// What a counter counts here.
#[derive(Drop)]
struct Compared;

const BACKSLASH: Option<u32> = Some(0x5C);

/// A text in utf8mb4, a pattern with its escape, and whether the text matches under utf8mb4_bin.
#[derive(Drop)]
struct Row {
    why: &'static str,
    text: &'static [u8],
    pattern: &'static [u8],
    escape: Option<u32>,
    matches: bool,
}

const ROWS: [Row; 10] = [
    Row {
        why: "a later place behind % matches",
        text: b"abcabd",
        pattern: b"%abd",
        escape: BACKSLASH,
        matches: true,
    },
    Row {
        why: "% matches the empty text",
        text: b"",
        pattern: b"%",
        escape: BACKSLASH,
        matches: true,
    },
    Row {
        why: "_ wants a character",
        text: b"",
        pattern: b"_",
        escape: BACKSLASH,
        matches: false,
    },
    Row {
        why: "_ is a character, not a byte",
        text: b"\xC3\xA9x",
        pattern: b"_x",
        escape: BACKSLASH,
        matches: true,
    },
    Row {
        why: "the escape at the end stands for itself",
        text: b"a\\",
        pattern: b"a\\",
        escape: BACKSLASH,
        matches: true,
    },
    Row {
        why: "an escaped % is a percent sign",
        text: b"a%",
        pattern: b"a\\%",
        escape: BACKSLASH,
        matches: true,
    },
    Row {
        why: "and no other character",
        text: b"ab",
        pattern: b"a\\%",
        escape: BACKSLASH,
        matches: false,
    },
    Row {
        why: "without an escape the backslash is a literal",
        text: b"a%",
        pattern: b"a\\%",
        escape: None,
        matches: false,
    },
    Row {
        why: "a space at the pattern's end counts",
        text: b"ab",
        pattern: b"a_ ",
        escape: BACKSLASH,
        matches: false,
    },
    Row {
        why: "a space at the text's end counts",
        text: b"ab ",
        pattern: b"a_",
        escape: BACKSLASH,
        matches: false,
    },
];

/// Whether the text matches, and the ticks of it; None where a text is not well formed.
fn answer(
    alloc: Global,
    text: &[u8],
    pattern: &[u8],
    escape: Option<u32>,
) -> Result<Option<(bool, u64)>, NoMemory> {
    let collation = BinCollation::new(CollId(4));
    let set = Charset::Utf8mb4;
    if !is_well_formed(set, text) || !is_well_formed(set, pattern) {
        return Ok(None);
    }
    let mut work = Steps::start(Compared);
    let pattern = compile(alloc, set, pattern, escape)?;
    let matches = pattern.matches(&collation, text, &mut work);
    Ok(Some((matches, work.count())))
}

#[test]
fn texts_match_as_worked_out(rt: HostRuntime) {
    for row in &ROWS {
        let found = answer(rt.alloc(), row.text, row.pattern, row.escape);
        assert!(rt;
            matches!(found, Ok(Some((matches, _))) if matches == row.matches),
            "{}",
            row.why
        );
    }
}

/// As many letters as the text has places.
fn letters(alloc: Global, count: usize) -> Result<Text, NoMemory> {
    let mut text = Text::new(alloc);
    for _ in 0..count {
        text.push(b'a')?;
    }
    Ok(text)
}

/// A pattern, and how many ticks it takes to find that 4,096 letters `a` do not match it.
#[derive(Drop)]
struct Count {
    why: &'static str,
    pattern: &'static [u8],
    ticks: u64,
}

const COUNTS: [Count; 2] = [
    Count {
        why: "one for each a, and 4,092 for the places where b may stand",
        pattern: b"%a%a%a%a%b%",
        ticks: 4096,
    },
    Count {
        why: "one for each a, and one for the last place",
        pattern: b"%a%a%a%a%b",
        ticks: 5,
    },
];

#[test]
fn gaps_take_no_more_ticks_than_places(rt: HostRuntime) {
    if let Ok(text) = letters(rt.alloc(), 4096) {
        for count in &COUNTS {
            let found = answer(rt.alloc(), text.as_slice(), count.pattern, BACKSLASH);
            assert!(rt;
                matches!(found, Ok(Some((false, ticks))) if ticks == count.ticks),
                "{}",
                count.why
            );
        }
    } else {
        assert!(rt; false, "ample memory");
    }
}

#[test]
fn the_prefix_ends_before_a_gap(rt: HostRuntime) {
    let text = b"M\xC3\xBC_l%";
    if !is_well_formed(Charset::Utf8mb4, text) {
        assert!(rt; false, "a pattern in UTF-8");
        return;
    }
    if let Ok(pattern) = compile(rt.alloc(), Charset::Utf8mb4, text, BACKSLASH) {
        assert!(rt; pattern.literal_prefix() == [0x4D, 0xFC].as_slice());
    } else {
        assert!(rt; false, "ample memory");
    }
}
