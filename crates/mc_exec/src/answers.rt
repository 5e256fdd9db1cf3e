ghost use Rattle.mc_catalog.specs.Fits.{FitsCatalog};
ghost use Rattle.mc_catalog.specs.Lawful.{IsLawful};
ghost use Rattle.mc_eval.specs.Fit.{has_like};
ghost use Rattle.mc_eval.specs.Outcomes.{IsKept};
ghost use Rattle.mc_exec.specs.FullScan.{answer, finish, full_scan};
ghost use Rattle.mc_exec.specs.Given.{alone};
ghost use Rattle.mc_exec.specs.Shown.{null_row, subjects_of};
ghost use Rattle.mc_exec.specs.Planned.{plan_entries, plan_seeks};
ghost use Rattle.mc_exec.specs.Source.{source};
ghost use Rattle.mc_exec.specs.Steps.{GoesOn, GoesUpTo, IsReadable};
ghost use Rattle.mc_exec.specs.Told.{Tells, TellsOf};
ghost use Rattle.mc_exec.specs.Work.{uses_like};
ghost use Rattle.mc_gather.specs.Indexed.{FitBook};
ghost use Rattle.mc_typing.specs.SoundStatements.{IsSoundStatement};
ghost use Rattle.mc_values.specs.Values.{IsTextOfSet};
ghost use Rattle.mc_values.specs.declared.value.Value.TheVariants as value;
ghost use Rattle.std.specs.List.{list_any};
ghost use Rattle.std.specs.Prelude.{
  ◌≡◌,
  ◌≤◌,
  ◌<◌,
  ◌+◌,
  ◌||◌,
  [],
  All,
  IfOk,
  IfSome,
  OnOk,
  false,
  length,
  map,
  option_and_then,
};

use crate::distinct::put_finished;
use crate::fault::ExecFault;
use crate::grouped::put_grouped;
use crate::scan::kept_rows;
use crate::subject::put_alone;
use crate::tables::Tables;
use mc_base::{List, NoMemory, Steps, Text};
use mc_catalog::{Catalog, ColumnDecl};
use mc_eval::evaluation_law;
use mc_order::Book;
use mc_typing::{Typed, sound_law};
use mc_values::{Answer, Row, Value};
use std::alloc::Global;

/// The headers once more.
fn copy_headers(alloc: Global, headers: &[Text]) -> Result<List<Text>, NoMemory>
    ensures { IfOk result (λ copies. copies ≡ headers.now) }
{
    let mut copies = List::new(alloc);
    for header in headers {
        copies.push(Text::from_slice(alloc, header.as_slice())?)?;
    }
    Ok(copies)
}

/// Appends NULLs, one for each column, to a row without any.
fn put_null_values(columns: &[ColumnDecl], nulls: &mut Row) -> Result<(), NoMemory>
    requires { nulls.old ≡ [] }
    ensures { OnOk result (nulls.new ≡ map (λ column. value.Null) columns.now) }
{
    for column in columns {
        nulls.push(Value::Null)?;
    }
    Ok(())
}

/// Appends NULLs, one for each column of a table, to a row without any; none without a table.
fn put_nulls(c: &Catalog, table: Option<u32>, nulls: &mut Row) -> Result<(), NoMemory>
    requires table { IfSome table (λ place. place < length c.now.tables) }
    requires none { nulls.old ≡ [] }
    ensures { OnOk result (nulls.new ≡ null_row c.now table) }
{
    match table {
        Some(place) => {
            let table = &c.tables.as_slice()[place as usize];
            put_null_values(table.columns.as_slice(), nulls)
        }
        None => Ok(()),
    }
}

/// Appends the rows that are shown of rows without groups to a list without any. `empty` is a row
/// without values.
fn put_ungrouped<'a, B: Book, W>(
    alloc: Global,
    c: &Catalog,
    q: &Typed,
    empty: &Row,
    rows: &[&'a Row],
    book: &B,
    work: &mut Steps<W>,
    shown: &mut List<Row>,
) -> Result<(), ExecFault>
    requires fits { FitsCatalog c.now (B.count book.now) (λ id. (B.meaning book.now id).charset) }
    requires sound { IsSoundStatement c.now q.now }
    requires ungrouped { q.now.grouped ≡ false }
    requires empty { empty.now ≡ [] }
    requires rows { All (λ row. IsReadable c.now q.now.table row.now) rows.now }
    requires none { shown.old ≡ [] }
    ensures told { TellsOf (finish (B.meaning book.now) q.now
        (map alone (map (λ row. row.now) rows.now))) shown.new result }
    ensures kept { All (All IsKept) shown.new }
    ensures work { GoesOn (list_any has_like q.now.items
        || list_any (λ key. has_like key.expr) q.now.orders) work.old work.new }
{
    evaluation_law();
    sound_law();
    let mut subjects = List::new(alloc);
    match put_alone(rows, empty, &mut subjects) {
        Ok(()) => put_finished(alloc, q, subjects.as_slice(), book, work, shown),
        Err(error) => Err(ExecFault::from(error)),
    }
}

/// Appends the rows that are shown of the rows that are kept to a list without any. `empty` is a
/// row without values, `nulls` one of NULLs.
fn put_shown_rows<'a, B: Book, W>(
    alloc: Global,
    c: &Catalog,
    q: &Typed,
    empty: &Row,
    nulls: &'a Row,
    rows: &[&'a Row],
    book: &B,
    work: &mut Steps<W>,
    shown: &mut List<Row>,
) -> Result<(), ExecFault>
    requires fits { FitsCatalog c.now (B.count book.now) (λ id. (B.meaning book.now id).charset) }
    requires sound { IsSoundStatement c.now q.now }
    requires empty { empty.now ≡ [] }
    requires nulls { nulls.now ≡ null_row c.now q.now.table }
    requires rows { All (λ row. IsReadable c.now q.now.table row.now) rows.now }
    requires none { shown.old ≡ [] }
    ensures told { TellsOf (option_and_then (finish (B.meaning book.now) q.now)
        (subjects_of c.now (B.meaning book.now) q.now q.now.grouped
        (map (λ row. row.now) rows.now))) shown.new result }
    ensures kept { All (All IsKept) shown.new }
    ensures work { GoesOn (uses_like q.now) work.old work.new }
{
    if q.grouped {
        put_grouped(alloc, c, q, nulls, rows, book, work, shown)
    } else {
        put_ungrouped(alloc, c, q, empty, rows, book, work, shown)
    }
}

/// Appends the rows that a statement shows to a list without any. `empty` is a row without values,
/// `nulls` one of NULLs.
fn put_answer<B: Book, W, L>(
    alloc: Global,
    q: &Typed,
    t: &Tables<L>,
    empty: &Row,
    nulls: &Row,
    book: &B,
    work: &mut Steps<W>,
    steps: &mut Steps<L>,
    shown: &mut List<Row>,
) -> Result<(), ExecFault>
    requires lawful { IsLawful t.now.catalog }
    requires fits { FitsCatalog t.now.catalog (B.count book.now)
        (λ id. (B.meaning book.now id).charset) }
    requires sound { IsSoundStatement t.now.catalog q.now }
    requires book { FitBook t.now.catalog (B.meaning book.now) t.now.rows t.now.indexes }
    requires empty { empty.now ≡ [] }
    requires nulls { nulls.now ≡ null_row t.now.catalog q.now.table }
    requires none { shown.old ≡ [] }
    ensures told { TellsOf (full_scan t.now.catalog (B.meaning book.now) q.now
        (source t.now.rows q.now.table)) shown.new result }
    ensures kept { All (All IsKept) shown.new }
    ensures fetched { steps.old ≤ steps.new }
    ensures steps { steps.new
        ≤ steps.old + plan_entries t.now.catalog (B.meaning book.now) t.now.rows q.now }
    ensures work { GoesUpTo (uses_like q.now)
        (plan_seeks t.now.catalog (B.meaning book.now) t.now.rows q.now) work.old work.new }
{
    evaluation_law();
    let mut kept = List::new(alloc);
    match kept_rows(alloc, q, t, empty, book, work, steps, &mut kept) {
        Ok(()) => {
            put_shown_rows(
                alloc,
                t.catalog(),
                q,
                empty,
                nulls,
                kept.as_slice(),
                book,
                work,
                shown,
            )
        }
        Err(fault) => Err(fault),
    }
}

/// Appends the rows that a statement shows to a list without any.
fn put_rows<B: Book, W, L>(
    alloc: Global,
    q: &Typed,
    t: &Tables<L>,
    book: &B,
    work: &mut Steps<W>,
    steps: &mut Steps<L>,
    shown: &mut List<Row>,
) -> Result<(), ExecFault>
    requires lawful { IsLawful t.now.catalog }
    requires fits { FitsCatalog t.now.catalog (B.count book.now)
        (λ id. (B.meaning book.now id).charset) }
    requires sound { IsSoundStatement t.now.catalog q.now }
    requires book { FitBook t.now.catalog (B.meaning book.now) t.now.rows t.now.indexes }
    requires none { shown.old ≡ [] }
    ensures told { TellsOf (full_scan t.now.catalog (B.meaning book.now) q.now
        (source t.now.rows q.now.table)) shown.new result }
    ensures kept { All (All IsKept) shown.new }
    ensures fetched { steps.old ≤ steps.new }
    ensures steps { steps.new
        ≤ steps.old + plan_entries t.now.catalog (B.meaning book.now) t.now.rows q.now }
    ensures work { GoesUpTo (uses_like q.now)
        (plan_seeks t.now.catalog (B.meaning book.now) t.now.rows q.now) work.old work.new }
{
    let empty = Row::new(alloc);
    let mut nulls = Row::new(alloc);
    match put_nulls(t.catalog(), q.table, &mut nulls) {
        Ok(()) => put_answer(alloc, q, t, &empty, &nulls, book, work, steps, shown),
        Err(error) => Err(ExecFault::from(error)),
    }
}

/// The answer to a typed statement: its headers, and the rows of a full scan of its table.
/// `OutOfRange` where a number that a condition, a group, an aggregate, an item or a key of a row
/// needs is outside 64 bits, also where the row isn't shown; `NoMemory` where memory runs out. Only
/// the rows that the statement's plan reads are fetched, each once at most; only the seeks of the
/// plan and LIKE add to `work`. MySQL 8.0 manual, 8.2.1.2 and 13.2.10.
pub fn select<B: Book, W, L>(
    alloc: Global,
    q: &Typed,
    t: &Tables<L>,
    book: &B,
    work: &mut Steps<W>,
    steps: &mut Steps<L>,
) -> Result<Answer, ExecFault>
    requires lawful { IsLawful t.now.catalog }
    requires fits { FitsCatalog t.now.catalog (B.count book.now)
        (λ id. (B.meaning book.now id).charset) }
    requires sound { IsSoundStatement t.now.catalog q.now }
    requires book { FitBook t.now.catalog (B.meaning book.now) t.now.rows t.now.indexes }
    ensures told { Tells
        (answer t.now.catalog (B.meaning book.now) t.now.rows q.now) result }
    ensures texts { IfOk result (λ answer. All (All IsTextOfSet) answer.rows) }
    ensures fetched { steps.old ≤ steps.new }
    ensures steps { steps.new
        ≤ steps.old + plan_entries t.now.catalog (B.meaning book.now) t.now.rows q.now }
    ensures work { uses_like q.now ≡ false → work.new
        ≤ work.old + plan_seeks t.now.catalog (B.meaning book.now) t.now.rows q.now }
    ensures later { work.old ≤ work.new }
{
    let mut rows = List::new(alloc);
    match put_rows(alloc, q, t, book, work, steps, &mut rows) {
        Ok(()) => match copy_headers(alloc, q.header.as_slice()) {
            Ok(header) => Ok(Answer { header, rows }),
            Err(error) => {
                drop(rows);
                Err(ExecFault::from(error))
            }
        },
        Err(fault) => {
            drop(rows);
            Err(fault)
        }
    }
}
