ghost use Rattle.mc_catalog.specs.Fits.{FitsCatalog};
ghost use Rattle.mc_catalog.specs.Lawful.{IsLawful};
ghost use Rattle.mc_exec.specs.Explained.{explained, name_at, plan_cells, plan_header, plan_row};
ghost use Rattle.mc_exec.specs.Planned.{plan_seeks};
ghost use Rattle.mc_exec.specs.Source.{source};
ghost use Rattle.mc_exec.specs.Steps.{IsAmong, IsServed};
ghost use Rattle.mc_gather.specs.Indexed.{FitBook};
ghost use Rattle.mc_gather.specs.PlanLaws.{seeks};
ghost use Rattle.mc_plan.specs.Entries.{entries};
ghost use Rattle.mc_plan.specs.Plans.{indexes_at};
ghost use Rattle.mc_typing.specs.SoundStatements.{IsSoundStatement};
ghost use Rattle.mc_values.specs.Values.{IsTextOfSet};
ghost use Rattle.mc_values.specs.declared.value.Value.TheVariants as value;
ghost use Rattle.std.specs.Prelude.{
  ◌≡◌,
  ◌≤◌,
  ◌<◌,
  ◌+◌,
  ◌++◌,
  ◌∷◌,
  [],
  All,
  IfOk,
  IfSome,
  OnOk,
  length,
  pos,
  suc,
};

use crate::counts::number;
use crate::planned::{declared_at, index_at, plan_count};
use crate::tables::Tables;
use mc_base::{List, NoMemory, Steps, Text};
use mc_catalog::{Catalog, IndexDecl};
use mc_charset::Charset;
use mc_order::Book;
use mc_plan::{Plan, choose};
use mc_typing::Typed;
use mc_values::{Answer, Row, Value};
use std::alloc::Global;

/// Appends a header.
fn put_header(alloc: Global, name: &[u8], header: &mut List<Text>) -> Result<(), NoMemory>
    ensures { OnOk result (header.new ≡ header.old ++ name.now ∷ []) }
{
    header.push(Text::from_slice(alloc, name)?)
}

/// Appends the headers of a plan to none.
fn put_plan_header(alloc: Global, header: &mut List<Text>) -> Result<(), NoMemory>
    requires { header.old ≡ [] }
    ensures { OnOk result (header.new ≡ plan_header) }
{
    put_header(alloc, b"key", header)?;
    put_header(alloc, b"conjunct", header)?;
    put_header(alloc, b"intervals", header)?;
    put_header(alloc, b"entries", header)
}

/// The headers of a plan.
fn plan_header(alloc: Global) -> Result<List<Text>, NoMemory>
    ensures { IfOk result (λ header. header ≡ plan_header) }
{
    let mut header = List::new(alloc);
    put_plan_header(alloc, &mut header)?;
    Ok(header)
}

/// The name of the index at a place.
fn name_at(alloc: Global, indexes: &[IndexDecl], index: u32) -> Result<Value, NoMemory>
    requires { index < length indexes.now }
    ensures { IfOk result (λ it. it ≡ name_at indexes.now index) }
{
    let text = Text::from_slice(alloc, index_at(indexes, index).name.as_slice())?;
    Ok(Value::Str {
        charset: Charset::Ascii,
        text,
    })
}

/// Appends NULLs for a scan to a row without any value.
fn put_nulls(row: &mut Row) -> Result<(), NoMemory>
    requires { row.old ≡ [] }
    ensures { OnOk result (row.new ≡ value.Null ∷ value.Null ∷ value.Null ∷ []) }
{
    row.push(Value::Null)?;
    row.push(Value::Null)?;
    row.push(Value::Null)
}

/// Appends the index's name, the conjunct's number, counted from 1, and the number of intervals to
/// a row without any value.
fn put_choice(
    alloc: Global,
    indexes: &[IndexDecl],
    index: u32,
    conjunct: u32,
    intervals: usize,
    row: &mut Row,
) -> Result<(), NoMemory>
    requires index { index < length indexes.now }
    requires none { row.old ≡ [] }
    ensures { OnOk result (row.new ≡ name_at indexes.now index
        ∷ value.Int (pos (suc conjunct)) ∷ value.Int (pos intervals) ∷ []) }
{
    row.push(name_at(alloc, indexes, index)?)?;
    row.push(Value::Int(i64::from(conjunct) + 1))?;
    row.push(number(intervals)?)
}

/// The indexes that a table declares; none without a table.
fn indexes_of(c: &Catalog, table: Option<u32>) -> &[IndexDecl]
    requires { IfSome table (λ place. place < length c.now.tables) }
    ensures { result.now ≡ indexes_at c.now table }
{
    match table {
        Some(place) => declared_at(c, place).indexes.as_slice(),
        None => &[],
    }
}

/// Appends the cells of a plan to a row without any value.
fn put_cells(
    alloc: Global,
    indexes: &[IndexDecl],
    plan: &Plan,
    row: &mut Row,
) -> Result<(), NoMemory>
    requires place { IsAmong indexes.now plan.now }
    requires none { row.old ≡ [] }
    ensures { OnOk result (row.new ≡ plan_cells indexes.now plan.now) }
{
    match plan {
        Plan::Scan => put_nulls(row),
        Plan::ByIndex {
            index,
            conjunct,
            intervals,
        } => put_choice(alloc, indexes, *index, *conjunct, intervals.len(), row),
    }
}

/// The row of a plan that reads so many rows.
fn plan_row(
    alloc: Global,
    indexes: &[IndexDecl],
    plan: &Plan,
    count: usize,
) -> Result<Row, NoMemory>
    requires { IsAmong indexes.now plan.now }
    ensures { IfOk result (λ row. row ≡ plan_row indexes.now plan.now count) }
{
    let mut row = Row::new(alloc);
    put_cells(alloc, indexes, plan, &mut row)?;
    row.push(number(count)?)?;
    Ok(row)
}

/// The answer of one row.
fn row_answer(alloc: Global, row: Row) -> Result<Answer, NoMemory>
    ensures { IfOk result
        (λ answer. answer ≡ record { header = plan_header; rows = row ∷ [] }) }
{
    let mut rows = List::new(alloc);
    rows.push(row)?;
    Ok(Answer {
        header: plan_header(alloc)?,
        rows,
    })
}

/// The answer of a plan.
fn plan_answer<B: Book, W, L>(
    alloc: Global,
    t: &Tables<L>,
    table: Option<u32>,
    plan: &Plan,
    book: &B,
    work: &mut Steps<W>,
) -> Result<Answer, NoMemory>
    requires table { IfSome table (λ place. place < length t.now.catalog.tables) }
    requires served { IsServed (B.count book.now) t.now.catalog table plan.now }
    requires book { FitBook t.now.catalog (B.meaning book.now) t.now.rows t.now.indexes }
    ensures is { IfOk result (λ answer. answer ≡ record {
      header = plan_header;
      rows = plan_row (indexes_at t.now.catalog table) plan.now (entries t.now.catalog
          (B.meaning book.now) table plan.now (source t.now.rows table)) ∷ [];
    }) }
    ensures later { work.old ≤ work.new }
    ensures work { work.new
        ≤ work.old + seeks t.now.catalog table plan.now (source t.now.rows table) }
{
    let count = plan_count(alloc, t, table, plan, book, work)?;
    let row = plan_row(alloc, indexes_of(t.catalog(), table), plan, count)?;
    row_answer(alloc, row)
}

/// The answer to EXPLAIN of a typed statement: the row of its plan. It is the index's name, the
/// number of the conjunct that names the intervals, counted from 1, and the number of intervals,
/// each NULL for a scan, and the number of rows that the plan reads. It fetches no row. `NoMemory`
/// where memory runs out. MySQL 8.0 manual, 13.8.2.
pub fn explain<B: Book, W, L>(
    alloc: Global,
    q: &Typed,
    t: &Tables<L>,
    book: &B,
    work: &mut Steps<W>,
) -> Result<Answer, NoMemory>
    requires lawful { IsLawful t.now.catalog }
    requires fits { FitsCatalog t.now.catalog (B.count book.now)
        (λ id. (B.meaning book.now id).charset) }
    requires sound { IsSoundStatement t.now.catalog q.now }
    requires book { FitBook t.now.catalog (B.meaning book.now) t.now.rows t.now.indexes }
    ensures is { IfOk result (λ answer. answer
        ≡ explained t.now.catalog (B.meaning book.now) t.now.rows q.now) }
    ensures texts { IfOk result (λ answer. All (All IsTextOfSet) answer.rows) }
    ensures later { work.old ≤ work.new }
    ensures work { work.new
        ≤ work.old + plan_seeks t.now.catalog (B.meaning book.now) t.now.rows q.now }
{
    match choose(alloc, q, t.catalog(), book) {
        Ok(plan) => plan_answer(alloc, t, q.table, &plan, book, work),
        Err(error) => Err(error),
    }
}
