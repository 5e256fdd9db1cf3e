use crate::toy::Toy;
use crate::{
    BinCollation, Collation, Pad, characters_laws, collation_laws, compare_lists, order_laws,
    shared_bytes, shared_start,
};
use mc_base::Weights;
use mc_charset::{Charset, CollId, is_well_formed};
use std::cmp::Ordering;

/// Two texts, the number of a collation, and their order.
#[derive(Drop)]
struct Row {
    why: &'static str,
    id: u32,
    a: &'static [u8],
    b: &'static [u8],
    order: Ordering,
}

const ROWS: [Row; 10] = [
    Row {
        why: "binary compares bytes, and a space counts",
        id: 0,
        a: b"a ",
        b: b"a",
        order: Ordering::Greater,
    },
    Row {
        why: "latin1 compares by bytes",
        id: 1,
        a: b"\x80",
        b: b"\xFF",
        order: Ordering::Less,
    },
    Row {
        why: "ascii is padded",
        id: 2,
        a: b"a  ",
        b: b"a",
        order: Ordering::Equal,
    },
    Row {
        why: "utf8mb3 compares by code points",
        id: 3,
        a: b"\xC3\xA9",
        b: b"z",
        order: Ordering::Greater,
    },
    Row {
        why: "TAB is below the space that prolongs",
        id: 4,
        a: b"a\t",
        b: b"a",
        order: Ordering::Less,
    },
    Row {
        why: "ucs2 compares by code points",
        id: 5,
        a: b"\x01\x00",
        b: b"\x00\xFF",
        order: Ordering::Greater,
    },
    Row {
        why: "U+FFFD is below U+1F600 in utf16",
        id: 6,
        a: b"\xFF\xFD",
        b: b"\xD8\x3D\xDE\x00",
        order: Ordering::Less,
    },
    Row {
        why: "utf32 is padded by characters",
        id: 7,
        a: b"\x00\x00\x00a\x00\x00\x00 ",
        b: b"\x00\x00\x00a",
        order: Ordering::Equal,
    },
    Row {
        why: "without padding a prefix is first",
        id: 8,
        a: b"a\t",
        b: b"a",
        order: Ordering::Greater,
    },
    Row {
        why: "a difference stands behind a block that both have",
        id: 4,
        a: b"0123456789012345678901234567890123a",
        b: b"0123456789012345678901234567890123b",
        order: Ordering::Less,
    },
];

#[test]
fn texts_compare(rt: HostRuntime) {
    for row in &ROWS {
        let order = order_of(row.id, row.a, row.b);
        assert!(rt; order == Some(row.order), "{}", row.why);
    }
}

/// The order of two texts, where they are well formed.
fn order_of(id: u32, a: &[u8], b: &[u8]) -> Option<Ordering> {
    if id > 8 {
        return None;
    }
    let collation = BinCollation::new(CollId(id));
    if !is_well_formed(collation.charset(), a) || !is_well_formed(collation.charset(), b) {
        return None;
    }
    Some(collation.compare(a, b))
}

#[test]
fn lists_are_put(rt: HostRuntime) {
    let collation = BinCollation::new(CollId(4));
    let mut out = Weights::new(rt.alloc());
    if is_well_formed(collation.charset(), b"\xC3\xA9b") {
        assert!(rt; collation.put_list(b"\xC3\xA9b", Some(1), &mut out).is_ok());
        assert!(rt; collation.put_list(b"\xC3\xA9b", None, &mut out).is_ok());
    }
    assert!(rt; out.as_slice() == [0xEA, 0xEA, 0x63].as_slice());
}

#[test]
fn lists_compare(rt: HostRuntime) {
    order_laws();
    let (tab, space) = ([0x62, 0x0A], [0x62, 0x21]);
    assert!(rt; compare_lists(&tab, &tab[..1], Pad::NoPad, 0) == Ordering::Greater);
    assert!(rt; compare_lists(&tab, &tab[..1], Pad::PadSpace, 0x21) == Ordering::Less);
    assert!(rt; compare_lists(&space[..1], &space, Pad::PadSpace, 0x21) == Ordering::Equal);
}

#[test]
fn texts_part(rt: HostRuntime) {
    let (a, b) = (b"x\xC3\xA9".as_slice(), b"x\xC3\xA8".as_slice());
    assert!(rt;
        shared_bytes(a, b) == 2,
        "U+00E9 and U+00E8 have one first byte"
    );
    if is_well_formed(Charset::Utf8mb4, a) && is_well_formed(Charset::Utf8mb4, b) {
        assert!(rt;
            shared_start(Charset::Utf8mb4, a, b) == 1,
            "and are two characters"
        );
    }
}

/// Two texts of the small kind, and their order.
#[derive(Drop)]
struct ToyRow {
    why: &'static str,
    a: &'static [u8],
    b: &'static [u8],
    order: Ordering,
}

const TOY_ROWS: [ToyRow; 5] = [
    ToyRow {
        why: "dzs is a letter behind d",
        a: b"dzs",
        b: b"dzz",
        order: Ordering::Greater,
    },
    ToyRow {
        why: "- has no weights",
        a: b"a-b",
        b: b"AB",
        order: Ordering::Equal,
    },
    ToyRow {
        why: "but it stands between the letters of a contraction",
        a: b"dz-s",
        b: b"dzs",
        order: Ordering::Less,
    },
    ToyRow {
        why: "& is et",
        a: b"&c",
        b: b"etc",
        order: Ordering::Equal,
    },
    ToyRow {
        why: "an accent counts behind all letters",
        a: b"\xE1b",
        b: b"ac",
        order: Ordering::Less,
    },
];

#[test]
fn small_kind_compares(rt: HostRuntime) {
    for row in &TOY_ROWS {
        let order = generic_order(&Toy, row.a, row.b);
        assert!(rt; order == Some(row.order), "{}", row.why);
    }
}

/// The order of two texts under any collation, where they are well formed.
fn generic_order<C: Collation>(collation: &C, a: &[u8], b: &[u8]) -> Option<Ordering> {
    collation_laws(collation);
    characters_laws();
    if !is_well_formed(collation.charset(), a) || !is_well_formed(collation.charset(), b) {
        return None;
    }
    Some(collation.compare(a, b))
}

#[test]
fn small_kind_has_tails(rt: HostRuntime) {
    let mut out = Weights::new(rt.alloc());
    if is_well_formed(Toy.charset(), b"dzs") {
        assert!(rt; Toy.put_list(b"dzs", Some(2), &mut out).is_ok());
    }
    assert!(rt; out.as_slice() == [0x45, 0x5B, 0, 1, 1].as_slice());
    assert!(rt; Toy.tail(Toy.tail_count() - 1) == [0x45, 0x5B].as_slice());
}
