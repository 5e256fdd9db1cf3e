ghost use Rattle.mc_charset.specs.Chars.{IsWellFormed};
ghost use Rattle.mc_range.specs.Condition.{IsCondOf};
ghost use Rattle.std.specs.Prelude.{IfOk};

use mc_base::{List, NoMemory, Text, Weights};
use mc_charset::{Charset, CollId, is_well_formed};
use mc_key::TOP;
use mc_order::{BinCollation, Collation};
use mc_range::{Cell, Cond, Interval, intervals};
use std::alloc::Global;

/// The condition of a row.
#[derive(Clone, Copy)]
enum Test {
    Eq,
    AtMost,
    AtLeast,
    Between,
    Like,
}

/// A built-in collation by its number, a condition on two texts, an index, how many intervals there
/// are, and the first one.
#[derive(Drop)]
struct Row {
    why: &'static str,
    id: u32,
    test: Test,
    first: &'static [u8],
    second: &'static [u8],
    prefix: Option<u32>,
    count: usize,
    lo: &'static [u32],
    hi: &'static [u32],
}

const ROWS: [Row; 9] = [
    Row {
        why: "a whole column has the text's list alone",
        id: 1,
        test: Test::Eq,
        first: b"ab",
        second: b"",
        prefix: None,
        count: 1,
        lo: &[0x62, 0x63],
        hi: &[0x62, 0x63],
    },
    Row {
        why: "one character keeps a weight at least",
        id: 1,
        test: Test::Eq,
        first: b"ab",
        second: b"",
        prefix: Some(1),
        count: 2,
        lo: &[0x62],
        hi: &[0x62],
    },
    Row {
        why: "a short text has no more than its list",
        id: 1,
        test: Test::Eq,
        first: b"a",
        second: b"",
        prefix: Some(5),
        count: 1,
        lo: &[0x62],
        hi: &[0x62],
    },
    Row {
        why: "TAB is below the space, so the shorter front is the greatest",
        id: 1,
        test: Test::AtMost,
        first: b"a\t",
        second: b"",
        prefix: Some(1),
        count: 1,
        lo: &[],
        hi: &[0x62],
    },
    Row {
        why: "and the longer one the least",
        id: 1,
        test: Test::AtLeast,
        first: b"a\t",
        second: b"",
        prefix: Some(1),
        count: 1,
        lo: &[0x62, 0x0A],
        hi: &[],
    },
    Row {
        why: "from one text to the other",
        id: 4,
        test: Test::Between,
        first: b"a",
        second: b"b",
        prefix: None,
        count: 1,
        lo: &[0x62],
        hi: &[0x63],
    },
    Row {
        why: "padded, the literals begin below their own spaces",
        id: 1,
        test: Test::Like,
        first: b"ab%",
        second: b"",
        prefix: None,
        count: 1,
        lo: &[0x62, 0x63, 0],
        hi: &[0x62, 0x63, TOP],
    },
    Row {
        why: "no more literals than the index has characters",
        id: 1,
        test: Test::Like,
        first: b"ab%",
        second: b"",
        prefix: Some(1),
        count: 1,
        lo: &[0x62, 0],
        hi: &[0x62, TOP],
    },
    Row {
        why: "unpadded, the literals themselves match",
        id: 8,
        test: Test::Like,
        first: b"a%",
        second: b"",
        prefix: None,
        count: 1,
        lo: &[0x62],
        hi: &[0x62, TOP],
    },
];

/// The condition of a row.
fn cond_of(
    alloc: Global,
    set: Charset,
    test: Test,
    first: &[u8],
    second: &[u8],
) -> Result<Cond, NoMemory>
    requires first { IsWellFormed set first.now }
    requires second { IsWellFormed set second.now }
    ensures { IfOk result (λ cond. IsCondOf set cond) }
{
    let one = Cell::Str(Text::from_slice(alloc, first)?);
    match test {
        Test::Eq => Ok(Cond::Eq(one)),
        Test::AtMost => Ok(Cond::AtMost(one)),
        Test::AtLeast => Ok(Cond::AtLeast(one)),
        Test::Between => {
            let other = Cell::Str(Text::from_slice(alloc, second)?);
            Ok(Cond::Between(one, other))
        }
        Test::Like => Ok(Cond::Like {
            pattern: one,
            escape: Some(0x5C),
        }),
    }
}

/// The intervals of a row.
fn answer(alloc: Global, row: &Row) -> Result<Option<List<Interval>>, NoMemory> {
    if row.id > 8 {
        return Ok(None);
    }
    let collation = BinCollation::new(CollId(row.id));
    let set = collation.charset();
    if !is_well_formed(set, row.first) || !is_well_formed(set, row.second) {
        return Ok(None);
    }
    let cond = cond_of(alloc, set, row.test, row.first, row.second)?;
    intervals(alloc, &cond, row.prefix, &collation)
}

/// Whether an end has these numbers; an open one has none.
fn is_end(end: &Option<Weights>, numbers: &[u32]) -> bool {
    match end {
        Some(list) => list.as_slice() == numbers,
        None => numbers.is_empty(),
    }
}

/// Whether the answer is that of the row.
fn is_row(found: &Result<Option<List<Interval>>, NoMemory>, row: &Row) -> bool {
    let Ok(Some(list)) = found else {
        return false;
    };
    match list.as_slice().first() {
        Some(first) => {
            list.len() == row.count && is_end(&first.lo, row.lo) && is_end(&first.hi, row.hi)
        }
        None => false,
    }
}

#[test]
fn intervals_are_as_worked_out(rt: HostRuntime) {
    for row in &ROWS {
        let found = answer(rt.alloc(), row);
        assert!(rt; is_row(&found, row), "{}", row.why);
    }
}

/// How many intervals a row has; None where none are named.
fn count_of(alloc: Global, row: &Row) -> Result<Option<usize>, NoMemory> {
    match answer(alloc, row)? {
        Some(list) => Ok(Some(list.len())),
        None => Ok(None),
    }
}

#[test]
fn a_pattern_without_literals_names_no_interval(rt: HostRuntime) {
    let row = Row {
        why: "it begins with %",
        id: 1,
        test: Test::Like,
        first: b"%a",
        second: b"",
        prefix: None,
        count: 0,
        lo: &[],
        hi: &[],
    };
    assert!(rt; count_of(rt.alloc(), &row) == Ok(None));
}

/// How many intervals IN has with NULL alone, in an index of whole texts under latin1_bin.
fn null_count(alloc: Global) -> Result<Option<usize>, NoMemory> {
    let mut cells = List::new(alloc);
    cells.push(Cell::Null)?;
    let collation = BinCollation::new(CollId(1));
    match intervals(alloc, &Cond::In(cells), None, &collation)? {
        Some(list) => Ok(Some(list.len())),
        None => Ok(None),
    }
}

#[test]
fn null_has_no_interval(rt: HostRuntime) {
    assert!(rt; null_count(rt.alloc()) == Ok(Some(0)));
}
