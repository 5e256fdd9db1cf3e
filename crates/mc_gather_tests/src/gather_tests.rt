ghost use Rattle.mc_catalog.specs.Fits.{FitsCatalog};
ghost use Rattle.mc_catalog.specs.Lawful.{IsLawful};
ghost use Rattle.mc_gather.specs.Indexed.{FitBook};
ghost use Rattle.mc_plan.specs.Plans.{index_collation, indexes_at};
ghost use Rattle.mc_typing.specs.SoundStatements.{columns_at};
ghost use Rattle.std.specs.Prelude.{◌≡◌, Some, option_and_then, slice_get};

use crate::intervals::{Ends, intervals_of};
use crate::stored::{CATALOG, Fetched, ROWS, collation_files, stored_rows};
use mc_base::{List, Steps};
use mc_book::build_book;
use mc_catalog::{Catalog, read_catalog};
use mc_charset::CollId;
use mc_gather::{build_indexes, held, plan_law, rows_through, space_law};
use mc_index::Index;
use mc_order::{Book, Collation};
use mc_plan::index_collation;
use mc_rows::Table;
use std::alloc::Global;

/// What a counter counts here.
#[derive(Drop)]
struct Compared;

/// Intervals of an index of the table, the rows through it, and how many comparisons are enough.
#[derive(Drop)]
struct Case {
    why: &'static str,
    index: u32,
    ends: &'static [Ends],
    rows: &'static [u32],
    compared: u64,
}

const CASES: [Case; 10] = [
    Case {
        why: "equal texts, in either case, and no NULL",
        index: 0,
        ends: &[(Some(b"A"), Some(b"A"))],
        rows: &[1, 3, 6],
        compared: 6,
    },
    Case {
        why: "the ends count, and rows come in the table's order",
        index: 0,
        ends: &[(Some(b"A"), Some(b"B"))],
        rows: &[0, 1, 3, 5, 6],
        compared: 6,
    },
    Case {
        why: "intervals that overlap have each row once",
        index: 0,
        ends: &[(Some(b"A"), Some(b"B")), (Some(b"B"), Some(b"C"))],
        rows: &[0, 1, 3, 4, 5, 6],
        compared: 12,
    },
    Case {
        why: "a longer interval in front of a shorter one, and of itself",
        index: 0,
        ends: &[
            (Some(b"A"), Some(b"C")),
            (Some(b"B"), Some(b"B")),
            (Some(b"A"), Some(b"C")),
        ],
        rows: &[0, 1, 3, 4, 5, 6],
        compared: 18,
    },
    Case {
        why: "intervals in any order",
        index: 0,
        ends: &[(Some(b"C"), Some(b"C")), (Some(b"A"), Some(b"A"))],
        rows: &[1, 3, 4, 6],
        compared: 12,
    },
    Case {
        why: "an open upper end is not sought",
        index: 0,
        ends: &[(Some(b"B"), None)],
        rows: &[0, 4, 5],
        compared: 3,
    },
    Case {
        why: "an open lower end is not sought, and NULL lies in no interval",
        index: 0,
        ends: &[(None, Some(b"A"))],
        rows: &[1, 3, 6],
        compared: 3,
    },
    Case {
        why: "no interval, no row and no comparison",
        index: 0,
        ends: &[],
        rows: &[],
        compared: 0,
    },
    Case {
        why: "turned ends have no row between them",
        index: 0,
        ends: &[(Some(b"B"), Some(b"A"))],
        rows: &[],
        compared: 6,
    },
    Case {
        why: "an index of first characters has longer texts among shorter ones",
        index: 1,
        ends: &[(Some(b"ab"), Some(b"ab"))],
        rows: &[0, 2, 4, 5],
        compared: 6,
    },
];

/// The rows through an index, and how often rows were fetched and keys compared.
#[derive(Drop)]
struct Found {
    rows: List<u32>,
    fetched: u64,
    compared: u64,
}

/// The rows through an index of keys by a collation.
fn in_index<C: Collation>(
    alloc: Global,
    index: &Index,
    collation: &C,
    ends: &[Ends],
    fetched: u64,
) -> Option<Found>
    requires pad { index.now.pad ≡ (C.meaning collation.now).pad }
    requires space { index.now.space ≡ (C.meaning collation.now).space }
{
    space_law(collation);
    let Ok(intervals) = intervals_of(alloc, ends) else {
        return None;
    };
    let mut work = Steps::start(Compared);
    let gathered = rows_through(
        alloc,
        index,
        collation.pad(),
        collation.space(),
        intervals.as_slice(),
        &mut work,
    );
    match gathered {
        Ok(rows) => Some(Found {
            rows,
            fetched,
            compared: work.count(),
        }),
        Err(_) => None,
    }
}

/// The collation of the column that an index of the first table covers.
fn collation_of(c: &Catalog, index: u32) -> Option<CollId>
    ensures { result ≡ option_and_then (λ it. index_collation (columns_at c.now (Some 0)) it)
        (slice_get (indexes_at c.now (Some 0)) index) }
{
    let table = c.tables.as_slice().get(0)?;
    let declared = table.indexes.as_slice().get(index as usize)?;
    index_collation(table.columns.as_slice(), declared)
}

/// The rows through an index that is held for the only table.
fn in_indexes<B: Book>(
    alloc: Global,
    c: &Catalog,
    rows: &List<Table<Fetched>>,
    book: &B,
    indexes: &List<List<Index>>,
    case: &Case,
    fetched: u64,
) -> Option<Found>
    requires { FitBook c.now (B.meaning book.now) rows.now indexes.now }
{
    let coll = collation_of(c, case.index)?;
    let index = held(indexes, 0, case.index)?;
    if coll.0 >= book.count() {
        return None;
    }
    plan_law();
    in_index(alloc, index, book.by_id(coll), case.ends, fetched)
}

/// The rows through an index of the only table, by a book.
fn in_book<B: Book>(alloc: Global, c: &Catalog, book: &B, case: &Case) -> Option<Found>
    requires lawful { IsLawful c.now }
    requires fits { FitsCatalog c.now (B.count book.now)
        (λ id. (B.meaning book.now id).charset) }
{
    let rows = stored_rows(alloc, c, ROWS)?;
    let mut steps = Steps::start(Fetched);
    match build_indexes(alloc, c, &rows, book, &mut steps) {
        Ok(indexes) => in_indexes(alloc, c, &rows, book, &indexes, case, steps.count()),
        Err(_) => None,
    }
}

/// The rows through an index of the only table of a catalog.
fn in_catalog(alloc: Global, c: &Catalog, case: &Case) -> Option<Found>
    requires { IsLawful c.now }
{
    let Ok(mut files) = collation_files(alloc) else {
        return None;
    };
    match build_book(alloc, c, &mut files) {
        Ok(book) => in_book(alloc, c, &book, case),
        Err(_) => None,
    }
}

/// The rows through an index of the table.
fn rows_of(alloc: Global, case: &Case) -> Option<Found> {
    match read_catalog(alloc, CATALOG) {
        Ok(catalog) => in_catalog(alloc, &catalog, case),
        Err(_) => None,
    }
}

/// Whether a case's rows go through its index, within its comparisons, and with some where there
/// is an end to seek.
fn holds(alloc: Global, case: &Case) -> bool {
    match rows_of(alloc, case) {
        Some(it) => {
            it.rows.as_slice() == case.rows
                && it.compared <= case.compared
                && (it.compared > 0) == (case.compared > 0)
        }
        None => false,
    }
}

#[test]
fn rows_go_through_an_index(rt: HostRuntime) {
    for case in &CASES {
        assert!(rt; holds(rt.alloc(), case), "{}", case.why);
    }
}

#[test]
fn each_row_is_fetched_once_for_each_index(rt: HostRuntime) {
    assert!(rt; matches!(rows_of(rt.alloc(), &CASES[0]), Some(it) if it.fetched == 14));
}
