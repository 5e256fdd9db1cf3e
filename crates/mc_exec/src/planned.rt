ghost use Rattle.mc_exec.specs.Source.{source};
ghost use Rattle.mc_exec.specs.Steps.{IsServed, Serves};
ghost use Rattle.mc_gather.specs.Indexed.{FitBook, rows_in};
ghost use Rattle.mc_gather.specs.PlanLaws.{AreRead, IsHeldFor, seeks};
ghost use Rattle.mc_gather.specs.Through.{AreRowsThrough};
ghost use Rattle.mc_index.specs.Digits.{binary_digits};
ghost use Rattle.mc_plan.specs.Entries.{entries};
ghost use Rattle.mc_plan.specs.Plans.{index_collation, indexes_at};
ghost use Rattle.mc_plan.specs.declared.plan.Plan.TheVariants.{ByIndex};
ghost use Rattle.mc_range.specs.Bounds.{HasBounds};
ghost use Rattle.mc_typing.specs.SoundStatements.{columns_at};
ghost use Rattle.std.specs.Prelude.{
  ◌≡◌,
  ◌≤◌,
  ◌<◌,
  ◌+◌,
  ◌*◌,
  ℕ,
  All,
  IfOk,
  IfSome,
  IsSome,
  IsSomeAnd,
  Some,
  length,
  slice_get,
};

use crate::tables::Tables;
use mc_base::{List, NoMemory, Steps};
use mc_catalog::{Catalog, IndexDecl, TableDecl};
use mc_charset::CollId;
use mc_gather::{plan_law, rows_through, space_law};
use mc_index::Index;
use mc_order::{Book, Collation};
use mc_plan::{Plan, index_collation};
use mc_range::Interval;
use std::alloc::Global;

/// The declaration of the table at a place.
pub(crate) fn declared_at(c: &Catalog, place: u32) -> &TableDecl
    requires { place < length c.now.tables }
    ensures { slice_get c.now.tables place ≡ Some result.now }
{
    &c.tables.as_slice()[place as usize]
}

/// The declaration of the index at a place.
pub(crate) fn index_at(indexes: &[IndexDecl], index: u32) -> &IndexDecl
    requires { index < length indexes.now }
    ensures { slice_get indexes.now index ≡ Some result.now }
{
    &indexes[index as usize]
}

/// The collation of the column that the index of a table covers.
fn collation_of(c: &Catalog, place: u32, index: u32) -> CollId
    requires table { place < length c.now.tables }
    requires index { IsSomeAnd (slice_get (indexes_at c.now (Some place)) index)
        (λ it. IsSome (index_collation (columns_at c.now (Some place)) it)) }
    ensures { IsSomeAnd (slice_get (indexes_at c.now (Some place)) index)
        (λ it. index_collation (columns_at c.now (Some place)) it ≡ Some result) }
{
    let table = declared_at(c, place);
    let index = index_at(table.indexes.as_slice(), index);
    index_collation(table.columns.as_slice(), index).unwrap()
}

/// The numbers of the rows that an index has in intervals, by its collation.
fn through<B: Book, W>(
    alloc: Global,
    coll: CollId,
    held: &Index,
    intervals: &[Interval],
    book: &B,
    work: &mut Steps<W>,
) -> Result<List<u32>, NoMemory>
    requires in_book { coll.0 < B.count book.now }
    requires pad { held.now.pad ≡ (B.meaning book.now coll.0).pad }
    requires space { held.now.space ≡ (B.meaning book.now coll.0).space }
    requires bounds { All HasBounds intervals.now }
    ensures are { IfOk result (AreRowsThrough held.now intervals.now) }
    ensures later { work.old ≤ work.new }
    ensures work { work.new
        ≤ work.old + length intervals.now * (2 * binary_digits (length held.now.entries)) }
{
    let collation = book.by_id(coll);
    space_law(collation);
    rows_through(
        alloc,
        held,
        collation.pad(),
        collation.space(),
        intervals,
        work,
    )
}

/// The numbers of the rows that a plan by an index reads, each once, in the table's order. It seeks
/// the ends of the plan's intervals in the index that is held, and fetches no row.
pub(crate) fn plan_rows<B: Book, W, L>(
    alloc: Global,
    t: &Tables<L>,
    place: u32,
    index: u32,
    intervals: &[Interval],
    book: &B,
    work: &mut Steps<W>,
) -> Result<List<u32>, NoMemory>
    requires table { place < length t.now.catalog.tables }
    requires serves { Serves (B.count book.now) t.now.catalog (Some place) index intervals.now }
    requires book { FitBook t.now.catalog (B.meaning book.now) t.now.rows t.now.indexes }
    ensures are { IfOk result (λ numbers. (conjunct : ℕ) → AreRead t.now.catalog
        (B.meaning book.now) place (ByIndex index conjunct intervals.now)
        (rows_in t.now.rows place) numbers) }
    ensures later { work.old ≤ work.new }
    ensures work { (conjunct : ℕ) → work.new ≤ work.old + seeks t.now.catalog (Some place)
        (ByIndex index conjunct intervals.now) (rows_in t.now.rows place) }
{
    plan_law();
    let coll = collation_of(t.catalog(), place, index);
    match t.index(place, index) {
        Some(held) => through(alloc, coll, held, intervals, book, work),
        None => unreachable!(),
    }
}

/// How many rows of its table a plan reads; none without a table. It fetches no row.
pub(crate) fn plan_count<B: Book, W, L>(
    alloc: Global,
    t: &Tables<L>,
    table: Option<u32>,
    plan: &Plan,
    book: &B,
    work: &mut Steps<W>,
) -> Result<usize, NoMemory>
    requires table { IfSome table (λ place. place < length t.now.catalog.tables) }
    requires served { IsServed (B.count book.now) t.now.catalog table plan.now }
    requires book { FitBook t.now.catalog (B.meaning book.now) t.now.rows t.now.indexes }
    ensures is { IfOk result (λ count. count ≡ entries t.now.catalog (B.meaning book.now) table
        plan.now (source t.now.rows table)) }
    ensures later { work.old ≤ work.new }
    ensures work { work.new
        ≤ work.old + seeks t.now.catalog table plan.now (source t.now.rows table) }
{
    match table {
        Some(place) => match plan {
            Plan::Scan => Ok(t.table(place).len() as usize),
            Plan::ByIndex {
                index,
                intervals,
                ..
            } => {
                let numbers = plan_rows(alloc, t, place, *index, intervals.as_slice(), book, work)?;
                Ok(numbers.len())
            }
        },
        None => Ok(0),
    }
}
