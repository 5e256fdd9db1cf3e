ghost use Rattle.mc_catalog.specs.Fits.{FitsCatalog};
ghost use Rattle.mc_catalog.specs.Lawful.{IsLawful};
ghost use Rattle.mc_eval.specs.Acceptance.{acceptance};
ghost use Rattle.mc_eval.specs.Fit.{has_like};
ghost use Rattle.mc_eval.specs.Node.{place};
ghost use Rattle.mc_eval.specs.Outcomes.{IsKept};
ghost use Rattle.mc_eval.specs.Prepared.{ArePrepared, prepared_exprs};
ghost use Rattle.mc_exec.specs.FullScan.{kept_rows};
ghost use Rattle.mc_exec.specs.Planned.{plan_entries, plan_seeks};
ghost use Rattle.mc_exec.specs.Source.{source};
ghost use Rattle.mc_exec.specs.Steps.{
  GoesOn,
  GoesUpTo,
  IsFit,
  IsReadable,
  IsServed,
  kept_with,
  with_kept,
};
ghost use Rattle.mc_exec.specs.Told.{TellsOf};
ghost use Rattle.mc_gather.specs.IndexLaws.{rows_of};
ghost use Rattle.mc_gather.specs.Indexed.{FitBook, rows_in};
ghost use Rattle.mc_gather.specs.PlanLaws.{seeks};
ghost use Rattle.mc_plan.specs.Entries.{entries, is_entry};
ghost use Rattle.mc_typing.specs.SoundStatements.{IsSoundStatement};
ghost use Rattle.std.specs.List.{list_any};
ghost use Rattle.std.specs.Prelude.{
  ◌≡◌,
  ◌≤◌,
  ◌+◌,
  ◌<◌,
  [],
  All,
  Some,
  filter,
  length,
  map,
};

use crate::fault::ExecFault;
use crate::planned::plan_rows;
use crate::tables::Tables;
use mc_base::{List, Steps};
use mc_charset::chars_law;
use mc_eval::{Prepared, accepts_prepared, prepare};
use mc_order::Book;
use mc_plan::{Plan, choose};
use mc_rows::Table;
use mc_typing::Typed;
use mc_values::Row;
use std::alloc::Global;

/// Appends a row where the conjuncts accept it.
fn keep_row<'a, B: Book, W>(
    alloc: Global,
    conjuncts: &List<Prepared<'_>>,
    row: &'a Row,
    book: &B,
    work: &mut Steps<W>,
    kept: &mut List<&'a Row>,
) -> Result<(), ExecFault>
    requires fit { All (IsFit (B.count book.now)) (prepared_exprs conjuncts.now) }
    requires ready { ArePrepared (B.meaning book.now) conjuncts.now }
    requires row { All IsKept row.now }
    ensures told { TellsOf (kept_with
        (acceptance (place row.now [] (B.meaning book.now)) (prepared_exprs conjuncts.now))
        (map (λ r. r.now) kept.old) row.now) (map (λ r. r.now) kept.new) result }
    ensures work { GoesOn (list_any has_like (prepared_exprs conjuncts.now)) work.old work.new }
{
    match accepts_prepared(alloc, conjuncts, row, book, work) {
        Ok(true) => {
            kept.push(row)?;
            Ok(())
        }
        Ok(false) => Ok(()),
        Err(fault) => Err(ExecFault::of(fault)),
    }
}

/// Appends the rows of a table that the conjuncts accept. Each row is fetched once.
fn keep_rows<'a, B: Book, W, L>(
    alloc: Global,
    conjuncts: &List<Prepared<'_>>,
    table: &'a Table<L>,
    book: &B,
    work: &mut Steps<W>,
    steps: &mut Steps<L>,
    kept: &mut List<&'a Row>,
) -> Result<(), ExecFault>
    requires fit { All (IsFit (B.count book.now)) (prepared_exprs conjuncts.now) }
    requires ready { ArePrepared (B.meaning book.now) conjuncts.now }
    requires rows { All (All IsKept) table.now }
    ensures told { TellsOf
        (with_kept (λ row. acceptance (place row [] (B.meaning book.now))
        (prepared_exprs conjuncts.now))
        (map (λ r. r.now) kept.old) table.now) (map (λ r. r.now) kept.new) result }
    ensures work { GoesOn (list_any has_like (prepared_exprs conjuncts.now)) work.old work.new }
    ensures fetched { steps.old ≤ steps.new }
    ensures steps { steps.new ≤ steps.old + length table.now }
{
    for i in 0..table.len() {
        match keep_row(alloc, conjuncts, table.fetch(i, steps), book, work, kept) {
            Ok(()) => {}
            Err(fault) => return Err(fault),
        }
    }
    Ok(())
}

/// Appends the rows of these numbers that the conjuncts accept. Each is fetched once.
fn keep_numbered<'a, B: Book, W, L>(
    alloc: Global,
    conjuncts: &List<Prepared<'_>>,
    table: &'a Table<L>,
    numbers: &[u32],
    book: &B,
    work: &mut Steps<W>,
    steps: &mut Steps<L>,
    kept: &mut List<&'a Row>,
) -> Result<(), ExecFault>
    requires fit { All (IsFit (B.count book.now)) (prepared_exprs conjuncts.now) }
    requires ready { ArePrepared (B.meaning book.now) conjuncts.now }
    requires rows { All (All IsKept) table.now }
    requires numbers { All (λ number. number < length table.now) numbers.now }
    ensures told { TellsOf
        (with_kept (λ row. acceptance (place row [] (B.meaning book.now))
        (prepared_exprs conjuncts.now))
        (map (λ r. r.now) kept.old) (rows_of table.now numbers.now))
        (map (λ r. r.now) kept.new) result }
    ensures work { GoesOn (list_any has_like (prepared_exprs conjuncts.now)) work.old work.new }
    ensures fetched { steps.old ≤ steps.new }
    ensures steps { steps.new ≤ steps.old + length numbers.now }
{
    for number in numbers {
        match keep_row(
            alloc,
            conjuncts,
            table.fetch(*number, steps),
            book,
            work,
            kept,
        ) {
            Ok(()) => {}
            Err(fault) => return Err(fault),
        }
    }
    Ok(())
}

/// Appends the rows that a plan reads and the conjuncts accept. Each that it reads is fetched once.
fn keep_planned<'a, B: Book, W, L>(
    alloc: Global,
    conjuncts: &List<Prepared<'_>>,
    t: &'a Tables<L>,
    table_place: u32,
    plan: &Plan,
    book: &B,
    work: &mut Steps<W>,
    steps: &mut Steps<L>,
    kept: &mut List<&'a Row>,
) -> Result<(), ExecFault>
    requires fit { All (IsFit (B.count book.now)) (prepared_exprs conjuncts.now) }
    requires ready { ArePrepared (B.meaning book.now) conjuncts.now }
    requires table { table_place < length t.now.catalog.tables }
    requires served { IsServed (B.count book.now) t.now.catalog (Some table_place) plan.now }
    requires book { FitBook t.now.catalog (B.meaning book.now) t.now.rows t.now.indexes }
    requires rows { All (All IsKept) (rows_in t.now.rows table_place) }
    ensures told { TellsOf
        (with_kept (λ row. acceptance (place row [] (B.meaning book.now))
        (prepared_exprs conjuncts.now))
        (map (λ r. r.now) kept.old)
        (filter (is_entry t.now.catalog (B.meaning book.now) (Some table_place) plan.now)
        (rows_in t.now.rows table_place))) (map (λ r. r.now) kept.new) result }
    ensures work { GoesUpTo (list_any has_like (prepared_exprs conjuncts.now))
        (seeks t.now.catalog (Some table_place) plan.now (rows_in t.now.rows table_place))
        work.old work.new }
    ensures fetched { steps.old ≤ steps.new }
    ensures steps { steps.new ≤ steps.old + entries t.now.catalog (B.meaning book.now)
        (Some table_place) plan.now (rows_in t.now.rows table_place) }
{
    let table = t.table(table_place);
    match plan {
        Plan::Scan => keep_rows(alloc, conjuncts, table, book, work, steps, kept),
        Plan::ByIndex {
            index,
            intervals,
            ..
        } => match plan_rows(
            alloc,
            t,
            table_place,
            *index,
            intervals.as_slice(),
            book,
            work,
        ) {
            Ok(numbers) => {
                let numbers = numbers.as_slice();
                keep_numbered(alloc, conjuncts, table, numbers, book, work, steps, kept)
            }
            Err(error) => Err(ExecFault::from(error)),
        },
    }
}

/// The rows of a statement's source can be read by its expressions.
fn source_law<L>(q: &Typed, t: &Tables<L>)
    requires lawful { IsLawful t.now.catalog }
    requires sound { IsSoundStatement t.now.catalog q.now }
    ensures { All (IsReadable t.now.catalog q.now.table) (source t.now.rows q.now.table) }
{
    chars_law();
    t.rows_law();
    let _table = q.table;
}

/// Appends the rows of a statement's source that its conjuncts, which are made ready, accept.
fn keep_source<'a, B: Book, W, L>(
    alloc: Global,
    q: &Typed,
    conjuncts: &List<Prepared<'_>>,
    t: &'a Tables<L>,
    empty: &'a Row,
    book: &B,
    work: &mut Steps<W>,
    steps: &mut Steps<L>,
    kept: &mut List<&'a Row>,
) -> Result<(), ExecFault>
    requires lawful { IsLawful t.now.catalog }
    requires fits { FitsCatalog t.now.catalog (B.count book.now)
        (λ id. (B.meaning book.now id).charset) }
    requires sound { IsSoundStatement t.now.catalog q.now }
    requires book { FitBook t.now.catalog (B.meaning book.now) t.now.rows t.now.indexes }
    requires fit { All (IsFit (B.count book.now)) q.now.conjuncts }
    requires exprs { prepared_exprs conjuncts.now ≡ q.now.conjuncts }
    requires ready { ArePrepared (B.meaning book.now) conjuncts.now }
    requires readable { All (IsReadable t.now.catalog q.now.table)
        (source t.now.rows q.now.table) }
    requires empty { empty.now ≡ [] }
    requires none { kept.old ≡ [] }
    ensures told { TellsOf
        (kept_rows (B.meaning book.now) q.now (source t.now.rows q.now.table))
        (map (λ r. r.now) kept.new) result }
    ensures work { GoesUpTo (list_any has_like q.now.conjuncts)
        (plan_seeks t.now.catalog (B.meaning book.now) t.now.rows q.now) work.old work.new }
    ensures fetched { steps.old ≤ steps.new }
    ensures steps { steps.new
        ≤ steps.old + plan_entries t.now.catalog (B.meaning book.now) t.now.rows q.now }
{
    match q.table {
        Some(place) => match choose(alloc, q, t.catalog(), book) {
            Ok(plan) => keep_planned(alloc, conjuncts, t, place, &plan, book, work, steps, kept),
            Err(error) => Err(ExecFault::from(error)),
        },
        None => keep_row(alloc, conjuncts, empty, book, work, kept),
    }
}

/// Appends the rows of a statement's source that it keeps to a list without any. `empty` is the row
/// of a statement without a table. Of a table those rows alone are fetched, each once, that the
/// statement's plan reads.
pub(crate) fn kept_rows<'a, B: Book, W, L>(
    alloc: Global,
    q: &Typed,
    t: &'a Tables<L>,
    empty: &'a Row,
    book: &B,
    work: &mut Steps<W>,
    steps: &mut Steps<L>,
    kept: &mut List<&'a Row>,
) -> Result<(), ExecFault>
    requires lawful { IsLawful t.now.catalog }
    requires fits { FitsCatalog t.now.catalog (B.count book.now)
        (λ id. (B.meaning book.now id).charset) }
    requires sound { IsSoundStatement t.now.catalog q.now }
    requires book { FitBook t.now.catalog (B.meaning book.now) t.now.rows t.now.indexes }
    requires fit { All (IsFit (B.count book.now)) q.now.conjuncts }
    requires empty { empty.now ≡ [] }
    requires none { kept.old ≡ [] }
    ensures told { TellsOf
        (kept_rows (B.meaning book.now) q.now (source t.now.rows q.now.table))
        (map (λ r. r.now) kept.new) result }
    ensures readable { All (IsReadable t.now.catalog q.now.table)
        (source t.now.rows q.now.table) }
    ensures work { GoesUpTo (list_any has_like q.now.conjuncts)
        (plan_seeks t.now.catalog (B.meaning book.now) t.now.rows q.now) work.old work.new }
    ensures fetched { steps.old ≤ steps.new }
    ensures steps { steps.new
        ≤ steps.old + plan_entries t.now.catalog (B.meaning book.now) t.now.rows q.now }
{
    source_law(q, t);
    match prepare(alloc, &q.conjuncts, book) {
        Ok(conjuncts) => keep_source(alloc, q, &conjuncts, t, empty, book, work, steps, kept),
        Err(error) => Err(ExecFault::from(error)),
    }
}
