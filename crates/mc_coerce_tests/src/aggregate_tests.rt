use crate::list_rows::{BYTES, COLUMNS, FOUR, Row, SHORT, UNICODE};
use crate::pair_rows::{ASCII, BINARY, LATIN1, ONE_SET, UTF8, WIDE};
use mc_base::{List, NoMemory, hex_number, next_field};
use mc_charset::{Charset, CollId, bin_of, charset_by_name};
use mc_coerce::{Agg, Operand, Purpose, aggregate, are_operands, beats};
use mc_convert::Repertoire;
use std::alloc::Global;

/// The operand that begins a line of fields, and the rest: set, kind of collation, level, class.
fn operand(line: &[u8]) -> Option<(Operand, &[u8])> {
    let (set, line) = next_field(line)?;
    let (kind, line) = next_field(line)?;
    let (level, line) = next_field(line)?;
    let (class, line) = next_field(line)?;
    let charset = charset_by_name(set)?;
    let operand = Operand {
        charset,
        collation: collation(charset, kind)?,
        bin: kind.ends_with(b"bin"),
        level: u8::try_from(hex_number(level)?).ok()?,
        repertoire: repertoire(class)?,
    };
    Some((operand, line))
}

/// The set's built-in collation, or one of two that a catalog may declare; of utf8mb4 another one
/// is built in.
fn collation(set: Charset, kind: &[u8]) -> Option<CollId> {
    let number = bin_of(set).0;
    match kind {
        b"bin" => Some(CollId(number)),
        b"0900_bin" => Some(CollId(8)),
        b"ci" => Some(CollId(number.wrapping_add(9))),
        b"cs" => Some(CollId(number.wrapping_add(17))),
        _ => None,
    }
}

fn repertoire(class: &[u8]) -> Option<Repertoire> {
    match class {
        b"ascii" => Some(Repertoire::Ascii),
        b"latin1" => Some(Repertoire::Latin1),
        b"bmp" => Some(Repertoire::Bmp),
        b"unicode" => Some(Repertoire::Unicode),
        b"bytes" => Some(Repertoire::Bytes),
        _ => None,
    }
}

/// The line behind a field `|`.
fn behind_bar(line: &[u8]) -> Option<&[u8]> {
    match next_field(line) {
        Some((b"|", line)) => Some(line),
        _ => None,
    }
}

/// Whether the first operand of a row beats the second, and the second the first, as it says.
fn beat_so(row: &[u8]) -> Option<bool> {
    let (a, line) = operand(row)?;
    let (b, line) = operand(behind_bar(line)?)?;
    let (first, second) = match next_field(behind_bar(line)?)?.0 {
        b"first" => (true, false),
        b"second" => (false, true),
        b"both" => (true, true),
        b"neither" => (false, false),
        _ => return None,
    };
    Some(beats(&a, &b) == first && beats(&b, &a) == second)
}

/// The first row that isn't so, or an empty text.
fn wrong_row(rows: &[&'static [u8]]) -> &'static [u8] {
    for row in rows {
        if beat_so(row) != Some(true) {
            return row;
        }
    }
    b""
}

#[test]
fn pairs_of_one_set(rt: HostRuntime) {
    let wrong = wrong_row(&ONE_SET);
    assert!(rt; wrong.is_empty(), "{wrong:?}");
}

#[test]
fn pairs_with_binary(rt: HostRuntime) {
    let wrong = wrong_row(&BINARY);
    assert!(rt; wrong.is_empty(), "{wrong:?}");
}

#[test]
fn pairs_with_latin1(rt: HostRuntime) {
    let wrong = wrong_row(&LATIN1);
    assert!(rt; wrong.is_empty(), "{wrong:?}");
}

#[test]
fn pairs_with_ascii(rt: HostRuntime) {
    let wrong = wrong_row(&ASCII);
    assert!(rt; wrong.is_empty(), "{wrong:?}");
}

#[test]
fn pairs_with_utf8(rt: HostRuntime) {
    let wrong = wrong_row(&UTF8);
    assert!(rt; wrong.is_empty(), "{wrong:?}");
}

#[test]
fn pairs_of_wide_sets(rt: HostRuntime) {
    let wrong = wrong_row(&WIDE);
    assert!(rt; wrong.is_empty(), "{wrong:?}");
}

/// The operands that the texts say; none where one says none.
fn operands(alloc: Global, texts: &[&[u8]]) -> Result<List<Operand>, NoMemory> {
    let mut list = List::new(alloc);
    for text in texts {
        let Some((operand, _)) = operand(text) else {
            return Ok(List::new(alloc));
        };
        list.push(operand)?;
    }
    Ok(list)
}

/// Whether it is the answer that the field says.
fn is_answer(agg: Agg, want: &[u8]) -> bool {
    match agg {
        Agg::Uses(together) => operand(want).map(|each| each.0) == Some(together),
        Agg::Mix => want == b"mix".as_slice(),
    }
}

/// Whether the operands have this together, to be compared and as a text.
fn have(alloc: Global, row: &Row) -> Result<bool, NoMemory> {
    let list = operands(alloc, row.operands)?;
    Ok(
        list.len() == row.operands.len()
            && are_operands(list.as_slice())
            && is_answer(aggregate(list.as_slice(), Purpose::Compare), row.compare)
            && is_answer(aggregate(list.as_slice(), Purpose::Text), row.text),
    )
}

/// What the first row shows that isn't so, or an empty text.
fn wrong_list(alloc: Global, rows: &[Row]) -> &'static str {
    for row in rows {
        if !have(alloc, row).unwrap_or(false) {
            return row.why;
        }
    }
    ""
}

#[test]
fn lists_of_up_to_two(rt: HostRuntime) {
    let wrong = wrong_list(rt.alloc(), &SHORT);
    assert!(rt; wrong.is_empty(), "{wrong}");
}

#[test]
fn lists_of_columns(rt: HostRuntime) {
    let wrong = wrong_list(rt.alloc(), &COLUMNS);
    assert!(rt; wrong.is_empty(), "{wrong}");
}

#[test]
fn lists_of_unicode_sets(rt: HostRuntime) {
    let wrong = wrong_list(rt.alloc(), &UNICODE);
    assert!(rt; wrong.is_empty(), "{wrong}");
}

#[test]
fn lists_with_bytes_and_null(rt: HostRuntime) {
    let wrong = wrong_list(rt.alloc(), &BYTES);
    assert!(rt; wrong.is_empty(), "{wrong}");
}

#[test]
fn lists_of_four(rt: HostRuntime) {
    let wrong = wrong_list(rt.alloc(), &FOUR);
    assert!(rt; wrong.is_empty(), "{wrong}");
}
