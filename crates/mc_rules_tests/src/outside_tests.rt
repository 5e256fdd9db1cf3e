use mc_allkeys::{Element, Keys, read_allkeys};
use mc_base::{List, NoMemory};
use mc_rules::{UcaFamily, outside};
use std::alloc::Global;

/// A code point without an entry, and its primary weights.
struct Row {
    kind: UcaFamily,
    code: u32,
    primaries: &'static [u16],
    why: &'static str,
}

const ROWS: [Row; 11] = [
    Row {
        kind: UcaFamily::Uca4,
        code: 0x04CF,
        primaries: &[0xFBC0, 0x84CF],
        why: "a letter",
    },
    Row {
        kind: UcaFamily::Uca4,
        code: 0x20000,
        primaries: &[0xFFFD],
        why: "above FFFF",
    },
    Row {
        kind: UcaFamily::Uca4,
        code: 0x9FA6,
        primaries: &[0xFBC1, 0x9FA6],
        why: "no ideograph of that version",
    },
    Row {
        kind: UcaFamily::Uca520,
        code: 0x20000,
        primaries: &[0xFBC4, 0x8000],
        why: "an extension that isn't told apart",
    },
    Row {
        kind: UcaFamily::Uca9,
        code: 0x4E00,
        primaries: &[0xFB40, 0xCE00],
        why: "the first ideograph",
    },
    Row {
        kind: UcaFamily::Uca9,
        code: 0x9FA6,
        primaries: &[0xFB41, 0x9FA6],
        why: "a later ideograph",
    },
    Row {
        kind: UcaFamily::Uca9,
        code: 0xFA0E,
        primaries: &[0xFB41, 0xFA0E],
        why: "an ideograph among those for compatibility",
    },
    Row {
        kind: UcaFamily::Uca9,
        code: 0x20000,
        primaries: &[0xFB84, 0x8000],
        why: "an extension",
    },
    Row {
        kind: UcaFamily::Uca9,
        code: 0x17000,
        primaries: &[0xFB00, 0x8000],
        why: "the first one of a range",
    },
    Row {
        kind: UcaFamily::Uca9,
        code: 0xAC00,
        primaries: &[0xFBC0, 0x9100, 0xFBC0, 0x9161],
        why: "a syllable of two jamo",
    },
    Row {
        kind: UcaFamily::Uca9,
        code: 0xAC01,
        primaries: &[0x1234, 0xFBC0, 0x9161, 0xFBC0, 0x91A8],
        why: "a syllable of three jamo, the first listed",
    },
];

/// Whether a code point has these primary weights.
fn has(alloc: Global, keys: &Keys, row: &Row) -> Result<bool, NoMemory> {
    let mut out: List<Element> = List::new(alloc);
    if row.code <= 0x10FFFF {
        outside(keys, row.kind, row.code, &mut out)?;
    }
    if out.len() != row.primaries.len() {
        return Ok(false);
    }
    for (element, p) in out.as_slice().iter().zip(row.primaries) {
        if element.p != *p {
            return Ok(false);
        }
    }
    Ok(true)
}

#[test]
fn characters_without_entries(rt: HostRuntime) {
    let bare = read_allkeys(rt.alloc(), b"@implicitweights 17000..18AFF; FB00");
    let jamo = read_allkeys(rt.alloc(), b"1100 ; [.1234.0020.0002]");
    if let (Ok(bare), Ok(jamo)) = (&bare, &jamo) {
        for row in &ROWS {
            let keys = if row.code == 0xAC01 { jamo } else { bare };
            assert!(rt; has(rt.alloc(), keys, row).unwrap_or(false), "{}", row.why);
        }
    } else {
        assert!(rt; false, "the tables are read");
    }
}
