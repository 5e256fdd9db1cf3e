use mc_base::Weights;
use mc_charset::{Charset, is_well_formed};
use mc_order::Collation;
use mc_table8::{GeneralCollation, Table8Collation, read_general, read_table8};
use std::alloc::Global;
use std::cmp::Ordering;

/// Two texts of a set, and their order.
struct Row {
    why: &'static str,
    charset: Charset,
    a: &'static [u8],
    b: &'static [u8],
    order: Ordering,
}

/// Letters without case, and in latin1 ä as ae, ß as ss.
const BYTES: &[u8] = b"default =\n61..7A @ 41\nC4 41 45\nDF 53 53\nE4 41 45";

/// Letters without case, ß as s.
const CODES: &[u8] = b"0061..007A @ 0041\n00DF 0053";

fn byte_collation(alloc: Global) -> Option<Table8Collation> {
    match read_table8(alloc, BYTES) {
        Ok(table) => Some(Table8Collation::new(Charset::Latin1, table)),
        Err(_) => None,
    }
}

fn code_collation(alloc: Global) -> Option<GeneralCollation> {
    match read_general(alloc, CODES) {
        Ok(table) => Some(GeneralCollation::new(Charset::Utf8mb4, table)),
        Err(_) => None,
    }
}

/// The order of two texts, where they are well formed.
fn order_of<C: Collation>(collation: &C, a: &[u8], b: &[u8]) -> Option<Ordering> {
    if is_well_formed(collation.charset(), a) && is_well_formed(collation.charset(), b) {
        Some(collation.compare(a, b))
    } else {
        None
    }
}

/// Texts of both collations.
const ROWS: [Row; 10] = [
    Row {
        why: "ä is ae",
        charset: Charset::Latin1,
        a: b"K\xE4se",
        b: b"KAESE",
        order: Ordering::Equal,
    },
    Row {
        why: "the second weight of ä is that of e",
        charset: Charset::Latin1,
        a: b"\xE4",
        b: b"ad",
        order: Ordering::Greater,
    },
    Row {
        why: "ß is ss",
        charset: Charset::Latin1,
        a: b"stra\xDFe",
        b: b"strasse",
        order: Ordering::Equal,
    },
    Row {
        why: "ß isn't s",
        charset: Charset::Latin1,
        a: b"\xDF",
        b: b"s",
        order: Ordering::Greater,
    },
    Row {
        why: "trailing spaces count for nothing",
        charset: Charset::Latin1,
        a: b"a  ",
        b: b"a",
        order: Ordering::Equal,
    },
    Row {
        why: "TAB is below the space that prolongs",
        charset: Charset::Latin1,
        a: b"a\t",
        b: b"a",
        order: Ordering::Less,
    },
    Row {
        why: "ß is s",
        charset: Charset::Utf8mb4,
        a: b"\xC3\x9F",
        b: b"S",
        order: Ordering::Equal,
    },
    Row {
        why: "U+1F600 has the weight of U+FFFD",
        charset: Charset::Utf8mb4,
        a: b"\xF0\x9F\x98\x80",
        b: b"\xEF\xBF\xBD",
        order: Ordering::Equal,
    },
    Row {
        why: "one byte in front is shared, the character isn't",
        charset: Charset::Utf8mb4,
        a: b"\xC3\x9F",
        b: b"\xC3\x9E",
        order: Ordering::Less,
    },
    Row {
        why: "TAB is below the space that prolongs",
        charset: Charset::Utf8mb4,
        a: b"a\t",
        b: b"a ",
        order: Ordering::Less,
    },
];

#[test]
fn texts_compare(rt: HostRuntime) {
    let by_byte = byte_collation(rt.alloc());
    let by_code = code_collation(rt.alloc());
    for row in &ROWS {
        let order = match (row.charset, &by_byte, &by_code) {
            (Charset::Latin1, Some(collation), _) => order_of(collation, row.a, row.b),
            (_, _, Some(collation)) => order_of(collation, row.a, row.b),
            _ => None,
        };
        assert!(rt; order == Some(row.order), "{}", row.why);
    }
}

/// The weights of the first character of a text, where it is well formed and memory is ample.
fn first_weights<C: Collation>(collation: &C, text: &[u8], out: &mut Weights) -> bool {
    is_well_formed(collation.charset(), text) && collation.put_list(text, Some(1), out).is_ok()
}

#[test]
fn lists_are_put(rt: HostRuntime) {
    let mut out = Weights::new(rt.alloc());
    if let Some(collation) = byte_collation(rt.alloc()) {
        assert!(rt;
            first_weights(&collation, b"\xE4x", &mut out),
            "ample memory"
        );
    }
    if let Some(collation) = code_collation(rt.alloc()) {
        assert!(rt;
            first_weights(&collation, b"\xC3\x9Fx", &mut out),
            "ample memory"
        );
    }
    assert!(rt; out.as_slice() == [0x42, 0x46, 0x54].as_slice());
}
