ghost use Rattle.mc_catalog.specs.Fits.{FitsCatalog};
ghost use Rattle.mc_eval.specs.Fit.{has_like};
ghost use Rattle.mc_eval.specs.Outcomes.{IsKept};
ghost use Rattle.mc_exec.specs.Aggregates.{aggregates_in};
ghost use Rattle.mc_exec.specs.FullScan.{finish};
ghost use Rattle.mc_exec.specs.Given.{all_of};
ghost use Rattle.mc_exec.specs.Grouped.{groups_by};
ghost use Rattle.mc_exec.specs.Ready.{
  IsAggregable,
  IsFitAggregate,
  IsFitStatement,
  IsShowable,
};
ghost use Rattle.mc_exec.specs.Shown.{
  group_values,
  line_in,
  null_row,
  or_one,
  standing,
  subjects_of,
};
ghost use Rattle.mc_exec.specs.Steps.{GoesOn, IsReadable, appended, with_all};
ghost use Rattle.mc_exec.specs.Told.{Finds, TellsOf};
ghost use Rattle.mc_exec.specs.Work.{uses_like};
ghost use Rattle.mc_typing.specs.SoundStatements.{IsSoundStatement};
ghost use Rattle.std.specs.List.{list_any, zip};
ghost use Rattle.std.specs.Prelude.{
  ◌≡◌,
  ◌||◌,
  [],
  All,
  OnOk,
  Some,
  length,
  map,
  option_and_then,
  slice_index_or,
  true,
};

use crate::aggregates::put_aggregates;
use crate::collected::put_statement_aggregates;
use crate::distinct::put_finished;
use crate::fault::ExecFault;
use crate::groups::{Groups, put_groups};
use crate::lines::check_line;
use crate::subject::LentSubject;
use mc_base::{List, NoMemory, Steps};
use mc_catalog::Catalog;
use mc_eval::evaluation_law;
use mc_order::Book;
use mc_typing::{Typed, TypedExpr, sound_law};
use mc_values::Row;
use std::alloc::Global;

/// Whether each of these rows can be evaluated with aggregates.
fn check_rows<B: Book, W>(
    alloc: Global,
    q: &Typed,
    rows: &[&Row],
    aggregates: &Row,
    book: &B,
    work: &mut Steps<W>,
) -> Result<(), ExecFault>
    requires fit { IsFitStatement (B.count book.now) q.now }
    requires rows { All (λ row. All IsKept row.now) rows.now }
    requires aggregates { All IsKept aggregates.now }
    ensures told { Finds (all_of (λ row. line_in (B.meaning book.now) q.now
        (record { row = row.now; aggregates = aggregates.now })) rows.now) result }
    ensures work { GoesOn (list_any has_like q.now.items
        || list_any (λ key. has_like key.expr) q.now.orders) work.old work.new }
{
    for row in rows {
        let subject = LentSubject {
            row: *row,
            aggregates,
        };
        match check_line(alloc, q, &subject, book, work) {
            Ok(()) => {}
            Err(fault) => return Err(fault),
        }
    }
    Ok(())
}

/// Whether the rows of a group can be evaluated with its aggregates; where it has none, a row of
/// NULLs.
fn check_group<B: Book, W>(
    alloc: Global,
    q: &Typed,
    nulls: &Row,
    rows: &[&Row],
    aggregates: &Row,
    book: &B,
    work: &mut Steps<W>,
) -> Result<(), ExecFault>
    requires fit { IsFitStatement (B.count book.now) q.now }
    requires nulls { All IsKept nulls.now }
    requires rows { All (λ row. All IsKept row.now) rows.now }
    requires aggregates { All IsKept aggregates.now }
    ensures told { Finds (all_of (λ row. line_in (B.meaning book.now) q.now
        (record { row = row; aggregates = aggregates.now }))
        (or_one nulls.now (map (λ row. row.now) rows.now))) result }
    ensures work { GoesOn (list_any has_like q.now.items
        || list_any (λ key. has_like key.expr) q.now.orders) work.old work.new }
{
    if rows.is_empty() {
        check_rows(alloc, q, &[nulls], aggregates, book, work)
    } else {
        check_rows(alloc, q, rows, aggregates, book, work)
    }
}

/// Appends the aggregates over a group, if its rows can be evaluated with them.
fn put_group<B: Book, W>(
    alloc: Global,
    q: &Typed,
    aggregates: &[&TypedExpr],
    nulls: &Row,
    rows: &[&Row],
    book: &B,
    work: &mut Steps<W>,
    values: &mut List<Row>,
) -> Result<(), ExecFault>
    requires fit { IsFitStatement (B.count book.now) q.now }
    requires aggregates { map (λ it. it.now) aggregates.now ≡ aggregates_in q.now }
    requires fit_aggregates { All (IsFitAggregate (B.count book.now)) (aggregates_in q.now) }
    requires nulls { All IsKept nulls.now }
    requires rows { All (IsAggregable (B.meaning book.now) (aggregates_in q.now))
        (map (λ row. row.now) rows.now) }
    requires kept { All (All IsKept) values.old }
    ensures told { TellsOf (appended values.old (group_values (B.meaning book.now) q.now nulls.now
        (map (λ row. row.now) rows.now))) values.new result }
    ensures kept { All (All IsKept) values.new }
    ensures work { GoesOn (list_any has_like (aggregates_in q.now)
        || (list_any has_like q.now.items
        || list_any (λ key. has_like key.expr) q.now.orders)) work.old work.new }
{
    let mut row = Row::new(alloc);
    match put_aggregates(alloc, aggregates, rows, book, work, &mut row) {
        Ok(()) => match check_group(alloc, q, nulls, rows, &row, book, work) {
            Ok(()) => {
                values.push(row)?;
                Ok(())
            }
            Err(fault) => {
                drop(row);
                Err(fault)
            }
        },
        Err(fault) => {
            drop(row);
            Err(fault)
        }
    }
}

/// Appends the aggregates over each group.
fn put_all_groups<B: Book, W>(
    alloc: Global,
    q: &Typed,
    aggregates: &[&TypedExpr],
    nulls: &Row,
    groups: &Groups,
    book: &B,
    work: &mut Steps<W>,
    values: &mut List<Row>,
) -> Result<(), ExecFault>
    requires fit { IsFitStatement (B.count book.now) q.now }
    requires aggregates { map (λ it. it.now) aggregates.now ≡ aggregates_in q.now }
    requires fit_aggregates { All (IsFitAggregate (B.count book.now)) (aggregates_in q.now) }
    requires nulls { All IsKept nulls.now }
    requires rows { All (All (IsAggregable (B.meaning book.now) (aggregates_in q.now)))
        groups.now }
    requires kept { All (All IsKept) values.old }
    ensures told { TellsOf (with_all (group_values (B.meaning book.now) q.now nulls.now)
        values.old groups.now) values.new result }
    ensures kept { All (All IsKept) values.new }
    ensures work { GoesOn (list_any has_like (aggregates_in q.now)
        || (list_any has_like q.now.items
        || list_any (λ key. has_like key.expr) q.now.orders)) work.old work.new }
{
    for i in 0..groups.len() {
        match put_group(
            alloc,
            q,
            aggregates,
            nulls,
            groups.rows(i),
            book,
            work,
            values,
        ) {
            Ok(()) => {}
            Err(fault) => return Err(fault),
        }
    }
    Ok(())
}

/// The first of these rows, or the other row where there is none.
fn first_row<'a>(rows: &[&'a Row], nulls: &'a Row) -> &'a Row
    ensures { result.now ≡ slice_index_or (map (λ row. row.now) rows.now) 0 nulls.now }
{
    if rows.is_empty() { nulls } else { rows[0] }
}

/// Appends what stands for each group to a list without any.
fn put_standing<'a, 'b>(
    groups: &Groups<'a>,
    nulls: &'a Row,
    values: &'b [Row],
    subjects: &mut List<LentSubject<'a, 'b>>,
) -> Result<(), NoMemory>
    requires as_many { length values.now ≡ length groups.now }
    requires none { subjects.old ≡ [] }
    ensures { OnOk result (subjects.new
        ≡ map (λ it. standing nulls.now it.0 it.1) (zip groups.now values.now)) }
{
    for (i, aggregates) in values.iter().enumerate() {
        subjects.push(LentSubject {
            row: first_row(groups.rows(i), nulls),
            aggregates,
        })?;
    }
    Ok(())
}

/// Appends the aggregates over each group to a list without any.
fn put_values<B: Book, W>(
    alloc: Global,
    q: &Typed,
    nulls: &Row,
    groups: &Groups,
    book: &B,
    work: &mut Steps<W>,
    values: &mut List<Row>,
) -> Result<(), ExecFault>
    requires fit { IsFitStatement (B.count book.now) q.now }
    requires fit_aggregates { All (IsFitAggregate (B.count book.now)) (aggregates_in q.now) }
    requires nulls { All IsKept nulls.now }
    requires rows { All (All (IsAggregable (B.meaning book.now) (aggregates_in q.now)))
        groups.now }
    requires none { values.old ≡ [] }
    ensures told { TellsOf (all_of (group_values (B.meaning book.now) q.now nulls.now) groups.now)
        values.new result }
    ensures kept { All (All IsKept) values.new }
    ensures work { GoesOn (list_any has_like (aggregates_in q.now)
        || (list_any has_like q.now.items
        || list_any (λ key. has_like key.expr) q.now.orders)) work.old work.new }
{
    let mut aggregates = List::new(alloc);
    match put_statement_aggregates(q, &mut aggregates) {
        Ok(()) => put_all_groups(
            alloc,
            q,
            aggregates.as_slice(),
            nulls,
            groups,
            book,
            work,
            values,
        ),
        Err(error) => Err(ExecFault::from(error)),
    }
}

/// Appends the groups of rows, and the aggregates over each, to none.
fn put_group_values<'a, B: Book, W>(
    alloc: Global,
    c: &Catalog,
    q: &Typed,
    nulls: &Row,
    rows: &[&'a Row],
    book: &B,
    work: &mut Steps<W>,
    groups: &mut Groups<'a>,
    values: &mut List<Row>,
) -> Result<(), ExecFault>
    requires fits { FitsCatalog c.now (B.count book.now) (λ id. (B.meaning book.now id).charset) }
    requires sound { IsSoundStatement c.now q.now }
    requires nulls { IsReadable c.now q.now.table nulls.now }
    requires rows { All (λ row. IsReadable c.now q.now.table row.now) rows.now }
    requires no_groups { groups.old ≡ [] }
    requires no_values { values.old ≡ [] }
    ensures told { TellsOf
        (option_and_then (all_of (group_values (B.meaning book.now) q.now nulls.now))
        (groups_by (B.meaning book.now) q.now.groups (map (λ row. row.now) rows.now)))
        values.new result }
    ensures groups { OnOk result
        (groups_by (B.meaning book.now) q.now.groups (map (λ row. row.now) rows.now)
        ≡ Some groups.new) }
    ensures kept { All (All IsKept) values.new }
    ensures rows { OnOk result (All (All (IsReadable c.now q.now.table)) groups.new) }
    ensures work { GoesOn (uses_like q.now) work.old work.new }
{
    evaluation_law();
    sound_law();
    match put_groups(alloc, q.groups.as_slice(), rows, book, work, groups) {
        Ok(()) => put_values(alloc, q, nulls, groups, book, work, values),
        Err(fault) => Err(fault),
    }
}

/// Appends the rows that are shown of groups with aggregates to a list without any.
fn put_stood<'a, B: Book, W>(
    alloc: Global,
    q: &Typed,
    nulls: &'a Row,
    groups: &Groups<'a>,
    values: &List<Row>,
    book: &B,
    work: &mut Steps<W>,
    shown: &mut List<Row>,
) -> Result<(), ExecFault>
    requires fit { IsFitStatement (B.count book.now) q.now }
    requires as_many { length values.now ≡ length groups.now }
    requires subjects { All (IsShowable (B.meaning book.now) q.now)
        (map (λ it. standing nulls.now it.0 it.1) (zip groups.now values.now)) }
    requires none { shown.old ≡ [] }
    ensures told { TellsOf (finish (B.meaning book.now) q.now
        (map (λ it. standing nulls.now it.0 it.1) (zip groups.now values.now))) shown.new result }
    ensures kept { All (All IsKept) shown.new }
    ensures work { GoesOn (list_any has_like q.now.items
        || list_any (λ key. has_like key.expr) q.now.orders) work.old work.new }
{
    let mut subjects = List::new(alloc);
    match put_standing(groups, nulls, values.as_slice(), &mut subjects) {
        Ok(()) => put_finished(alloc, q, subjects.as_slice(), book, work, shown),
        Err(error) => Err(ExecFault::from(error)),
    }
}

/// Appends the rows that are shown of the groups of rows to a list without any. `nulls` is a row of
/// NULLs.
pub(crate) fn put_grouped<'a, B: Book, W>(
    alloc: Global,
    c: &Catalog,
    q: &Typed,
    nulls: &'a Row,
    rows: &[&'a Row],
    book: &B,
    work: &mut Steps<W>,
    shown: &mut List<Row>,
) -> Result<(), ExecFault>
    requires fits { FitsCatalog c.now (B.count book.now) (λ id. (B.meaning book.now id).charset) }
    requires sound { IsSoundStatement c.now q.now }
    requires nulls { nulls.now ≡ null_row c.now q.now.table }
    requires rows { All (λ row. IsReadable c.now q.now.table row.now) rows.now }
    requires none { shown.old ≡ [] }
    ensures told { TellsOf (option_and_then (finish (B.meaning book.now) q.now)
        (subjects_of c.now (B.meaning book.now) q.now true (map (λ row. row.now) rows.now)))
        shown.new result }
    ensures kept { All (All IsKept) shown.new }
    ensures work { GoesOn (uses_like q.now) work.old work.new }
{
    evaluation_law();
    sound_law();
    let mut groups = Groups::new(alloc);
    let mut values = List::new(alloc);
    match put_group_values(
        alloc,
        c,
        q,
        nulls,
        rows,
        book,
        work,
        &mut groups,
        &mut values,
    ) {
        Ok(()) => put_stood(alloc, q, nulls, &groups, &values, book, work, shown),
        Err(fault) => Err(fault),
    }
}
