use mc_allkeys::read_allkeys;
use mc_base::Weights;
use mc_charset::{Charset, is_well_formed};
use mc_order::Collation;
use mc_uca::{UcaCollation, UcaFault, UcaKind};
use std::alloc::Global;
use std::cmp::Ordering;

/// Letters with contractions of up to four code points; U+00AD has no weights.
const TABLE: &[u8] = b"0020 ; [*0209.0020.0002]
00AD ; [.0000.0000.0000]
0061 ; [.1C47.0020.0002]
0041 ; [.1C47.0020.0008]
00E1 ; [.1C47.0020.0002][.0000.0024.0002]
0062 ; [.1C60.0020.0002]
0063 ; [.1C7A.0020.0002]
0064 ; [.1C8F.0020.0002]
0073 ; [.1E71.0020.0002]
00DF ; [.1E71.0020.0004][.0000.011A.0004][.1E71.0020.0004]
0061 0061 ; [.1CA1.0020.0002]
0061 0062 ; [.1CA2.0020.0002]
0061 0062 0063 0064 ; [.1CA3.0020.0002]
0062 0063 ; [.1C61.0020.0002]
0062 0064 ; [.1C10.0020.0002]
00AD 0061 ; [.1CA4.0020.0002]
0062 1F600 ; [.1C62.0020.0002]
";

/// Two texts and their order on so many levels.
struct Row {
    levels: u8,
    a: &'static [u8],
    b: &'static [u8],
    order: Ordering,
    why: &'static str,
}

const ROWS: [Row; 14] = [
    Row {
        levels: 1,
        a: b"abcd",
        b: b"abc",
        order: Ordering::Greater,
        why: "abcd is one piece, abc is ab and c",
    },
    Row {
        levels: 1,
        a: b"abbc",
        b: b"abcd",
        order: Ordering::Less,
        why: "ab and bc come before abcd",
    },
    Row {
        levels: 1,
        a: b"aaab",
        b: b"aaac",
        order: Ordering::Greater,
        why: "aa and ab, against aa and a and c",
    },
    Row {
        levels: 1,
        a: b"ab",
        b: b"ac",
        order: Ordering::Greater,
        why: "ab comes behind a",
    },
    Row {
        levels: 1,
        a: b"b",
        b: b"bd",
        order: Ordering::Greater,
        why: "a contraction comes before its first letter",
    },
    Row {
        levels: 1,
        a: b"a\xC2\xADb",
        b: b"ab",
        order: Ordering::Less,
        why: "contractions are contiguous",
    },
    Row {
        levels: 1,
        a: b"a\xC2\xADc",
        b: b"ac",
        order: Ordering::Equal,
        why: "U+00AD has no weights",
    },
    Row {
        levels: 3,
        a: b"",
        b: b"\xC2\xAD",
        order: Ordering::Equal,
        why: "nor has it weights on other levels",
    },
    Row {
        levels: 1,
        a: b"\xC3\x9F",
        b: b"ss",
        order: Ordering::Equal,
        why: "an expansion",
    },
    Row {
        levels: 2,
        a: b"\xC3\x9F",
        b: b"ss",
        order: Ordering::Greater,
        why: "an expansion differs on the second level",
    },
    Row {
        levels: 2,
        a: b"\xC3\xA1",
        b: b"as",
        order: Ordering::Less,
        why: "the first level decides before the second one",
    },
    Row {
        levels: 2,
        a: b"a",
        b: b"A",
        order: Ordering::Equal,
        why: "case is on the third level",
    },
    Row {
        levels: 3,
        a: b"a",
        b: b"A",
        order: Ordering::Less,
        why: "a small letter comes first",
    },
    Row {
        levels: 1,
        a: b"\xE4\xB8\x80",
        b: b"\xEA\xB0\x80",
        order: Ordering::Less,
        why: "an ideograph without an entry comes before a syllable of jamo without one",
    },
];

fn collation(alloc: Global, levels: u8) -> Option<UcaCollation> {
    if levels < 1 || levels > 3 {
        return None;
    }
    match read_allkeys(alloc, TABLE) {
        Ok(keys) => {
            match UcaCollation::new(alloc, UcaKind::Uca9 { levels }, Charset::Utf8mb4, keys) {
                Ok(uca) => Some(uca),
                Err(_) => None,
            }
        }
        Err(_) => None,
    }
}

/// The order of two texts, where they are well formed.
fn order_of<C: Collation>(collation: &C, a: &[u8], b: &[u8]) -> Option<Ordering> {
    if is_well_formed(collation.charset(), a) && is_well_formed(collation.charset(), b) {
        Some(collation.compare(a, b))
    } else {
        None
    }
}

/// What the first row shows, of those on so many levels, that isn't so.
fn first_wrong<C: Collation>(collation: &C, levels: u8) -> Option<&'static str> {
    for row in &ROWS {
        if row.levels == levels && order_of(collation, row.a, row.b) != Some(row.order) {
            return Some(row.why);
        }
    }
    None
}

/// The first list of a text's first characters.
fn list_of<C: Collation>(alloc: Global, collation: &C, text: &[u8], first: u32) -> Option<Weights> {
    let mut list = Weights::new(alloc);
    if is_well_formed(collation.charset(), text)
        && collation.put_list(text, Some(first), &mut list).is_ok()
    {
        Some(list)
    } else {
        None
    }
}

/// Whether a list of one level is this one.
fn is_list(list: Option<Weights>, weights: &[u32]) -> bool {
    match list {
        Some(list) => list.as_slice() == weights,
        None => false,
    }
}

/// What isn't so of the collation of one level.
fn wrong_of<C: Collation>(alloc: Global, uca: &C) -> Option<&'static str> {
    if uca.tail_count() != 4 || uca.tail(3) != [0x1CA2, 0x1C7A].as_slice() {
        return Some("the tails are the lists of a, b, ab and abc, and abc is ab and c");
    }
    if uca.floor(5) != 0 {
        return Some("there are contractions");
    }
    if !is_list(list_of(alloc, uca, b"abcd", 3), &[0x1CA2, 0x1C7A]) {
        return Some("the first three characters of abcd are ab and c");
    }
    None
}

#[test]
fn texts_are_ordered(rt: HostRuntime) {
    for levels in 1..4 {
        let wrong = match collation(rt.alloc(), levels) {
            Some(uca) => first_wrong(&uca, levels),
            None => Some("the collation is made"),
        };
        assert!(rt; wrong.is_none(), "{}", wrong.unwrap_or(""));
    }
}

#[test]
fn characters_and_lists(rt: HostRuntime) {
    let wrong = match collation(rt.alloc(), 1) {
        Some(uca) => wrong_of(rt.alloc(), &uca),
        None => Some("the collation is made"),
    };
    assert!(rt; wrong.is_none(), "{}", wrong.unwrap_or(""));
}

/// Whether a table whose space has two weights is refused, where texts are padded.
fn is_space_refused(alloc: Global) -> bool {
    match read_allkeys(alloc, b"0020 ; [.0209.0020.0002][.0001.0020.0002]") {
        Ok(keys) => match UcaCollation::new(alloc, UcaKind::Uca4, Charset::Utf8mb4, keys) {
            Err(UcaFault::SpaceWeight) => true,
            _ => false,
        },
        Err(_) => false,
    }
}

#[test]
fn a_space_of_two_weights(rt: HostRuntime) {
    assert!(rt;
        is_space_refused(rt.alloc()),
        "the space's weight doesn't fit"
    );
}
