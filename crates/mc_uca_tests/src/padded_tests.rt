ghost use Rattle.mc_order.specs.Meaning.{IsCharOf};
ghost use Rattle.std.specs.Bool.{OnTrue};

use mc_allkeys::read_allkeys;
use mc_charset::{Charset, has_char, is_well_formed};
use mc_order::{Collation, Pad};
use mc_uca::{UcaCollation, UcaKind};
use std::alloc::Global;
use std::cmp::Ordering;

/// Letters, TAB below the space, and a contraction.
const TABLE: &[u8] = b"0009 ; [*0201.0020.0002]
0020 ; [*0209.0020.0002]
0061 ; [.1C47.0020.0002]
0041 ; [.1C47.0020.0008]
0062 ; [.1C60.0020.0002]
0061 0062 ; [.1CA2.0020.0002]
";

/// Two characters, and whether they have the same weights.
struct Pair {
    c: u32,
    d: u32,
    same: bool,
    why: &'static str,
}

const PAIRS: [Pair; 5] = [
    Pair {
        c: 0x61,
        d: 0x41,
        same: true,
        why: "a and A have one weight on the only level",
    },
    Pair {
        c: 0x61,
        d: 0x62,
        same: false,
        why: "a and b have different weights",
    },
    Pair {
        c: 0x20,
        d: 0x9,
        same: false,
        why: "TAB isn't the space",
    },
    Pair {
        c: 0x4E00,
        d: 0x4E00,
        same: true,
        why: "a character is itself",
    },
    Pair {
        c: 0x4E00,
        d: 0x4E01,
        same: false,
        why: "two characters without an entry",
    },
];

/// A character, and whether no character that begins a contraction has its weights.
struct Head {
    c: u32,
    safe: bool,
    why: &'static str,
}

const HEADS: [Head; 5] = [
    Head {
        c: 0x61,
        safe: false,
        why: "a begins a contraction",
    },
    Head {
        c: 0x41,
        safe: false,
        why: "A has the weight of a",
    },
    Head {
        c: 0x62,
        safe: true,
        why: "b stands only behind a",
    },
    Head {
        c: 0x20,
        safe: true,
        why: "the space is in no contraction",
    },
    Head {
        c: 0x4E00,
        safe: true,
        why: "a character without an entry",
    },
];

/// Two texts of two bytes a character, and their order.
struct Row {
    a: &'static [u8],
    b: &'static [u8],
    order: Ordering,
    why: &'static str,
}

const ROWS: [Row; 5] = [
    Row {
        a: b"\0a",
        b: b"\0a\0 ",
        order: Ordering::Equal,
        why: "a text is prolonged by spaces",
    },
    Row {
        a: b"\0a\0\t",
        b: b"\0a",
        order: Ordering::Less,
        why: "TAB comes before the space",
    },
    Row {
        a: b"\0a\0\t",
        b: b"\0a\0 \0 ",
        order: Ordering::Less,
        why: "spaces behind it change nothing",
    },
    Row {
        a: b"\0A",
        b: b"\0a\0 ",
        order: Ordering::Equal,
        why: "case is on a level that isn't compared",
    },
    Row {
        a: b"\0a\0b",
        b: b"\0a\0 \0b",
        order: Ordering::Greater,
        why: "no contraction reaches over a space",
    },
];

fn collation(alloc: Global) -> Option<UcaCollation> {
    match read_allkeys(alloc, TABLE) {
        Ok(keys) => match UcaCollation::new(alloc, UcaKind::Uca4, Charset::Ucs2, keys) {
            Ok(uca) => Some(uca),
            Err(_) => None,
        },
        Err(_) => None,
    }
}

/// What the first row shows that isn't so.
fn first_wrong<C: Collation>(uca: &C) -> Option<&'static str> {
    for row in &ROWS {
        if !is_well_formed(uca.charset(), row.a) || !is_well_formed(uca.charset(), row.b) {
            return Some("the texts are well formed");
        }
        if uca.compare(row.a, row.b) != row.order {
            return Some(row.why);
        }
    }
    None
}

/// Whether a collation's set has a character.
fn is_char_of<C: Collation>(uca: &C, c: u32) -> bool
    ensures { OnTrue result (IsCharOf (C.meaning uca.now).charset c) }
{
    has_char(uca.charset(), c)
}

/// Whether two characters have the same weights, where the set has them.
fn same_of<C: Collation>(uca: &C, c: u32, d: u32) -> Option<bool> {
    if is_char_of(uca, c) && is_char_of(uca, d) {
        Some(uca.same_char(c, d))
    } else {
        None
    }
}

/// Whether a character is safe, where the set has it.
fn safe_of<C: Collation>(uca: &C, c: u32) -> Option<bool> {
    if is_char_of(uca, c) {
        Some(uca.safe(c))
    } else {
        None
    }
}

/// What the first pair or head shows that isn't so.
fn wrong_char<C: Collation>(uca: &C) -> Option<&'static str> {
    for pair in &PAIRS {
        if same_of(uca, pair.c, pair.d) != Some(pair.same) {
            return Some(pair.why);
        }
    }
    for head in &HEADS {
        if safe_of(uca, head.c) != Some(head.safe) {
            return Some(head.why);
        }
    }
    None
}

/// What isn't so of the collation.
fn wrong_of<C: Collation>(uca: &C) -> Option<&'static str> {
    if uca.pad() != Pad::PadSpace || uca.space() != 0x209 {
        return Some("texts are padded with the space's weight");
    }
    first_wrong(uca)
}

#[test]
fn padded_texts(rt: HostRuntime) {
    let wrong = match collation(rt.alloc()) {
        Some(uca) => wrong_of(&uca),
        None => Some("the collation is made"),
    };
    assert!(rt; wrong.is_none(), "{}", wrong.unwrap_or(""));
}

#[test]
fn padded_characters(rt: HostRuntime) {
    let wrong = match collation(rt.alloc()) {
        Some(uca) => wrong_char(&uca),
        None => Some("the collation is made"),
    };
    assert!(rt; wrong.is_none(), "{}", wrong.unwrap_or(""));
}
