ghost use Rattle.mc_charset.specs.Chars.{IsWellFormed};
ghost use Rattle.mc_index.specs.Entries.{rows_of};
ghost use Rattle.mc_index.specs.Places.{IsBoundOf};
ghost use Rattle.mc_order.specs.Bin.{bin_meaning};
ghost use Rattle.std.specs.List.{All};
ghost use Rattle.std.specs.Prelude.{◌≡◌, ◌<◌, ◌≤◌, ◌+◌, ◌^◌, IfOk};

use mc_base::{List, NoMemory, Steps, Weights};
use mc_charset::{CollId, is_well_formed};
use mc_index::{Index, IndexBuilder, Side};
use mc_key::{Bound, make_bound, make_key};
use mc_order::{BinCollation, Collation};
use std::alloc::Global;

/// What a counter counts here.
#[derive(Drop)]
struct Compared;

/// Texts by their rows, of which a test takes the first.
const TEXTS: [&[u8]; 8] = [b"c", b"a ", b"b", b"a", b"b", b"c ", b"b", b"a"];

/// Adds the entry of a text, if it is one of the collation's set.
fn add_text(
    alloc: Global,
    collation: &BinCollation,
    builder: &mut IndexBuilder,
    row: u32,
    text: &[u8],
) -> Result<(), NoMemory>
    requires pad { builder.old.pad ≡ (bin_meaning collation.now).pad }
    requires space { builder.old.space ≡ (bin_meaning collation.now).space }
    requires earlier { All (λ other. other < row) (rows_of builder.old.entries) }
    ensures pad { builder.new.pad ≡ builder.old.pad }
    ensures space { builder.new.space ≡ builder.old.space }
    ensures earlier { IfOk result
        (λ _. All (λ other. other < row + 1) (rows_of builder.new.entries)) }
{
    if !is_well_formed(collation.charset(), text) {
        return Ok(());
    }
    let key = make_key(alloc, collation, text, None)?;
    builder.add(row, key)
}

/// The index of the first texts.
fn index_of(alloc: Global, collation: &BinCollation, count: u32) -> Result<Index, NoMemory>
    requires { count ≤ 8 }
    ensures pad { IfOk result (λ index. index.pad ≡ (bin_meaning collation.now).pad) }
    ensures space { IfOk result (λ index. index.space ≡ (bin_meaning collation.now).space) }
{
    let mut builder = IndexBuilder::new(alloc, collation.pad(), collation.space());
    for row in 0..count {
        add_text(alloc, collation, &mut builder, row, TEXTS[row as usize])?;
    }
    builder.seal()
}

/// The bound of a character's weight.
fn bound_of(alloc: Global, collation: &BinCollation, character: u8) -> Result<Bound, NoMemory>
    ensures pad { IfOk result (λ bound. bound.pad ≡ (bin_meaning collation.now).pad) }
    ensures space { IfOk result (λ bound. bound.space ≡ (bin_meaning collation.now).space) }
{
    let mut numbers = Weights::new(alloc);
    numbers.push(u32::from(character) + 1)?;
    make_bound(alloc, &numbers, collation.pad(), collation.space())
}

/// How many texts are in an index under a built-in collation, a bound, how many entries stand
/// before its sides, and how many comparisons are enough.
#[derive(Drop)]
struct Row {
    why: &'static str,
    id: u32,
    count: u32,
    bound: u8,
    before: usize,
    after: usize,
    digits: u64,
}

const ROWS: [Row; 8] = [
    Row {
        why: "no entries, no comparison",
        id: 1,
        count: 0,
        bound: b'a',
        before: 0,
        after: 0,
        digits: 0,
    },
    Row {
        why: "one entry, beside the bound",
        id: 1,
        count: 1,
        bound: b'c',
        before: 0,
        after: 1,
        digits: 1,
    },
    Row {
        why: "three entries, two comparisons",
        id: 1,
        count: 3,
        bound: b'b',
        before: 1,
        after: 2,
        digits: 2,
    },
    Row {
        why: "padded, a space at the end decides nothing",
        id: 1,
        count: 4,
        bound: b'a',
        before: 0,
        after: 2,
        digits: 3,
    },
    Row {
        why: "unpadded, it stands behind",
        id: 0,
        count: 4,
        bound: b'a',
        before: 0,
        after: 1,
        digits: 3,
    },
    Row {
        why: "seven entries, three comparisons, and a run of equal keys",
        id: 1,
        count: 7,
        bound: b'b',
        before: 2,
        after: 5,
        digits: 3,
    },
    Row {
        why: "eight entries, and all are before the bound",
        id: 1,
        count: 8,
        bound: b'd',
        before: 8,
        after: 8,
        digits: 4,
    },
    Row {
        why: "or behind it",
        id: 0,
        count: 8,
        bound: b'A',
        before: 0,
        after: 0,
        digits: 4,
    },
];

/// Whether a bound stands where a row says, within its comparisons.
fn stands(alloc: Global, row: &Row) -> Result<bool, NoMemory> {
    if row.id > 8 || row.count > 8 {
        return Ok(false);
    }
    let collation = BinCollation::new(CollId(row.id));
    let index = index_of(alloc, &collation, row.count)?;
    let bound = bound_of(alloc, &collation, row.bound)?;
    let mut first = Steps::start(Compared);
    let before = index.seek(&bound, Side::Before, &mut first);
    let mut second = Steps::start(Compared);
    let after = index.seek(&bound, Side::After, &mut second);
    Ok(
        before == row.before
            && after == row.after
            && first.count() <= row.digits
            && second.count() <= row.digits,
    )
}

/// Why a row fails.
fn wrong_row(alloc: Global) -> Option<&'static str> {
    for row in &ROWS {
        match stands(alloc, row) {
            Ok(true) => {}
            Ok(false) | Err(_) => return Some(row.why),
        }
    }
    None
}

#[test]
fn bounds_stand_between_entries(rt: HostRuntime) {
    assert!(rt; wrong_row(rt.alloc()) == None);
}

/// The rows of the texts' entries in order.
fn rows_in_order(alloc: Global) -> Result<List<u32>, NoMemory> {
    let collation = BinCollation::new(CollId(1));
    let index = index_of(alloc, &collation, 8)?;
    let mut rows = List::new(alloc);
    for place in 0..index.len() {
        rows.push(index.row_at(place))?;
    }
    Ok(rows)
}

#[test]
fn equal_keys_stand_by_their_rows(rt: HostRuntime) {
    let want: [u32; 8] = [1, 3, 7, 2, 4, 6, 0, 5];
    assert!(rt;
        matches!(&rows_in_order(rt.alloc()), Ok(rows) if rows.as_slice() == want.as_slice())
    );
}

/// How many entries lie from one character's bound to another's, up to it, from it on, and the
/// other way round.
fn counts(alloc: Global, low: u8, high: u8) -> Result<(usize, usize, usize, usize), NoMemory> {
    let collation = BinCollation::new(CollId(1));
    let index = index_of(alloc, &collation, 8)?;
    let lo = bound_of(alloc, &collation, low)?;
    let hi = bound_of(alloc, &collation, high)?;
    let mut work = Steps::start(Compared);
    Ok((
        index.count_in(Some(&lo), Some(&hi), &mut work),
        index.count_in(None, Some(&hi), &mut work),
        index.count_in(Some(&lo), None, &mut work),
        index.count_in(Some(&hi), Some(&lo), &mut work),
    ))
}

#[test]
fn entries_of_intervals_are_counted(rt: HostRuntime) {
    assert!(rt; counts(rt.alloc(), b'a', b'b') == Ok((6, 6, 8, 0)));
    assert!(rt; counts(rt.alloc(), b'b', b'c') == Ok((5, 8, 5, 0)));
}
