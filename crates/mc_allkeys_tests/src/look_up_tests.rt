use mc_allkeys::{Element, Keys, read_allkeys};
use std::alloc::Global;

const TABLE: &[u8] = b"@version 9.0.0
@implicitweights 17000..18AFF; FB00
@implicitweights 18B00..18CFF; FB00 # numbered from 17000
0009 ; [*0201.0020.0002]
00AD ; [.0000.0000.0000]
0061 ; [.1C47.0020.0002.0061]
00e4;[.1C47.0020.0002] [.0000.002B.0002]
0061 0062 0063 ; [.1CA1.0020.0002]
0061 0062 ; [.1CA2.0020.0002]
D800 0061 ; [.1.2.3]
";

fn element(p: u16, s: u16, t: u16) -> Element {
    Element { p, s, t }
}

/// The first elements of a code point's entry.
fn first_of(keys: &Keys, c: u32) -> Option<Element> {
    keys.single(c)?.first().copied()
}

/// Whether the contraction at a place is this text.
fn is_contraction(keys: &Keys, place: u32, text: &[u32]) -> bool {
    place < keys.contraction_count() && keys.contraction(place) == text
}

/// How many code points the longest contraction has that begins a text.
fn longest_of(keys: &Keys, text: &[u32]) -> Option<usize> {
    let (len, _) = keys.longest(text)?;
    Some(len)
}

fn table(alloc: Global) -> Option<Keys> {
    read_allkeys(alloc, TABLE).ok()
}

/// What isn't so of the entries of single code points.
fn wrong_entry(keys: &Keys) -> Option<&'static str> {
    if first_of(keys, 0x9) != Some(element(0x201, 0x20, 2)) {
        return Some("a star is read as a dot");
    }
    if first_of(keys, 0xAD) != Some(element(0, 0, 0)) {
        return Some("an element of zeros");
    }
    if keys.single(0xE4).map(|elements| elements.len()) != Some(2) {
        return Some("two elements, no blank before the semicolon");
    }
    if keys.single(0xE5).is_some() {
        return Some("not listed");
    }
    if keys.single(0xD800).is_some() {
        return Some("a surrogate makes no entry");
    }
    None
}

/// What isn't so of the contractions.
fn wrong_contraction(keys: &Keys) -> Option<&'static str> {
    if longest_of(keys, &[0x61, 0x62, 0x63, 0x64]) != Some(3) {
        return Some("the longest one");
    }
    if longest_of(keys, &[0x61, 0x62, 0x64]) != Some(2) {
        return Some("the one that is there");
    }
    if longest_of(keys, &[0x61, 0x64]).is_some() {
        return Some("none begins it");
    }
    if longest_of(keys, &[0x62, 0x63]).is_some() {
        return Some("no first of one");
    }
    if keys.contraction_count() != 2 {
        return Some("two of them");
    }
    if !is_contraction(keys, 0, &[0x61, 0x62]) {
        return Some("a prefix comes first, whatever the order of the lines");
    }
    if !is_contraction(keys, 1, &[0x61, 0x62, 0x63]) {
        return Some("the longer one behind it");
    }
    None
}

/// What isn't so of the table.
fn wrong_of(alloc: Global) -> Option<&'static str> {
    match table(alloc) {
        Some(keys) => wrong_entry(&keys).or(wrong_contraction(&keys)),
        None => Some("the table is read"),
    }
}

#[test]
fn texts_are_found(rt: HostRuntime) {
    let wrong = wrong_of(rt.alloc());
    assert!(rt; wrong.is_none(), "{}", wrong.unwrap_or(""));
}

/// Ranges that overlap, the narrow ones in the middle and behind.
const RANGES: &[u8] = b"@implicitweights 17100..171FF; FB01
@implicitweights 17000..172FF; FB02
@implicitweights 17200..17200; FB03
@implicitweights 17280..17380; FB04
";

/// A code point, and the base and the number that a file of ranges gives it.
struct Row {
    code: u32,
    found: Option<(u16, u32)>,
    why: &'static str,
}

const ROWS: [Row; 8] = [
    Row {
        code: 0x16FFF,
        found: None,
        why: "before all of them",
    },
    Row {
        code: 0x170FF,
        found: Some((0xFB02, 0xFF)),
        why: "the wide range before the narrow one",
    },
    Row {
        code: 0x17100,
        found: Some((0xFB01, 0)),
        why: "the first line decides",
    },
    Row {
        code: 0x171FF,
        found: Some((0xFB01, 0xFF)),
        why: "so at its end",
    },
    Row {
        code: 0x17200,
        found: Some((0xFB02, 0x200)),
        why: "the third line decides nothing",
    },
    Row {
        code: 0x172FF,
        found: Some((0xFB02, 0x2FF)),
        why: "the end of the wide range",
    },
    Row {
        code: 0x17300,
        found: Some((0xFB04, 0x80)),
        why: "what the last line has for itself, numbered from its start",
    },
    Row {
        code: 0x17381,
        found: None,
        why: "behind all of them",
    },
];

/// What the first row shows that isn't so.
fn wrong_number(keys: &Keys, rows: &[Row]) -> Option<&'static str> {
    for row in rows {
        if keys.implicit_base(row.code) != row.found {
            return Some(row.why);
        }
    }
    None
}

/// What isn't so of a file of ranges.
fn wrong_range(alloc: Global, text: &[u8], rows: &[Row]) -> Option<&'static str> {
    if text.len() > 1000 {
        return Some("the text is short");
    }
    match read_allkeys(alloc, text) {
        Ok(keys) => wrong_number(&keys, rows),
        Err(_) => Some("the table is read"),
    }
}

#[test]
fn the_first_range_decides(rt: HostRuntime) {
    let wrong = wrong_range(rt.alloc(), RANGES, &ROWS);
    assert!(rt; wrong.is_none(), "{}", wrong.unwrap_or(""));
}

const NUMBERS: [Row; 5] = [
    Row {
        code: 0x16FFF,
        found: None,
        why: "in no range",
    },
    Row {
        code: 0x17001,
        found: Some((0xFB00, 1)),
        why: "in the first range",
    },
    Row {
        code: 0x18AFF,
        found: Some((0xFB00, 0x1AFF)),
        why: "the last one of the first range",
    },
    Row {
        code: 0x18B00,
        found: Some((0xFB00, 0x1B00)),
        why: "from the first start",
    },
    Row {
        code: 0x18D00,
        found: None,
        why: "behind both",
    },
];

#[test]
fn implicit_weights_are_numbered(rt: HostRuntime) {
    let wrong = wrong_range(rt.alloc(), TABLE, &NUMBERS);
    assert!(rt; wrong.is_none(), "{}", wrong.unwrap_or(""));
}
