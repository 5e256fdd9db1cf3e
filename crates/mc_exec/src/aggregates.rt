ghost use Rattle.mc_eval.specs.Fit.{has_like};
ghost use Rattle.mc_eval.specs.Outcomes.{IsKept};
ghost use Rattle.mc_exec.specs.Aggregates.{
  aggregate_over,
  column_of,
  combined,
  extreme,
  sum_given,
};
ghost use Rattle.mc_exec.specs.Given.{alone, value_in};
ghost use Rattle.mc_exec.specs.Ready.{GivesKind, IsAggregable, IsFitAggregate, NodeGivesKind};
ghost use Rattle.mc_exec.specs.Ordered.{kind_of};
ghost use Rattle.mc_exec.specs.Steps.{GoesOn, IsFit, appended, with_all};
ghost use Rattle.mc_exec.specs.Told.{Tells, TellsOf};
ghost use Rattle.mc_group.specs.Kinds.{IsInBook, IsOfKind};
ghost use Rattle.mc_group.specs.Order.{value_order};
ghost use Rattle.mc_group.specs.Sums.{sum_of};
ghost use Rattle.mc_values.specs.declared.value.Value.{Value};
ghost use Rattle.mc_typing.specs.Parts.{node_parts};
ghost use Rattle.mc_typing.specs.declared.typed.Node.TheViews.{out-Node};
ghost use Rattle.std.specs.List.{list_any};
ghost use Rattle.std.specs.Ordering.{flip_args};
ghost use Rattle.std.specs.Prelude.{
  ◌≡◌,
  All,
  IfOk,
  Some,
  false,
  map,
  option_and_then,
};

use crate::counts::{count_of, number};
use crate::fault::ExecFault;
use crate::keys::put_value;
use crate::order::kind_of;
use crate::subject::LentSubject;
use mc_base::{List, NoMemory, Steps};
use mc_group::{KeyKind, SumFault, greatest, least, sum};
use mc_order::Book;
use mc_typing::{AggName, Node, TypedExpr};
use mc_values::{Row, Value, copy_value};
use std::alloc::Global;

/// The places of so many values have 32 bits.
const MOST: usize = 4294967296;

/// MIN of values.
fn least_of<B: Book>(
    alloc: Global,
    kind: KeyKind,
    values: &List<Value>,
    book: &B,
) -> Result<Value, NoMemory>
    requires in_book { IsInBook (B.count book.now) kind }
    requires of_kind { All (IsOfKind (B.meaning book.now) kind) values.now }
    ensures { IfOk result (λ it.
        it ≡ extreme (value_order (B.meaning book.now) kind) values.now) }
{
    if values.len() > MOST {
        return Err(NoMemory);
    }
    match least(values, kind, book) {
        Some(place) => copy_value(alloc, &values.as_slice()[place as usize]),
        None => Ok(Value::Null),
    }
}

/// MAX of values.
fn greatest_of<B: Book>(
    alloc: Global,
    kind: KeyKind,
    values: &List<Value>,
    book: &B,
) -> Result<Value, NoMemory>
    requires in_book { IsInBook (B.count book.now) kind }
    requires of_kind { All (IsOfKind (B.meaning book.now) kind) values.now }
    ensures { IfOk result (λ it.
        it ≡ extreme (flip_args (value_order (B.meaning book.now) kind)) values.now) }
{
    if values.len() > MOST {
        return Err(NoMemory);
    }
    match greatest(values, kind, book) {
        Some(place) => copy_value(alloc, &values.as_slice()[place as usize]),
        None => Ok(Value::Null),
    }
}

/// SUM of values.
fn sum_of(values: &List<Value>) -> Result<Value, ExecFault>
    ensures { Tells (sum_given (sum_of values.now)) result }
{
    match sum(values) {
        Ok(it) => Ok(it),
        Err(SumFault::OutOfRange) => Err(ExecFault::OutOfRange),
    }
}

/// A value, or want of memory for it.
fn made(it: Result<Value, NoMemory>) -> Result<Value, ExecFault>
    ensures { (wanted : Value) → IfOk it (λ v. v ≡ wanted) → Tells (Some wanted) result }
{
    match it {
        Ok(it) => Ok(it),
        Err(error) => Err(ExecFault::from(error)),
    }
}

/// An aggregate of values.
fn combine<B: Book>(
    alloc: Global,
    name: AggName,
    distinct: bool,
    kind: KeyKind,
    values: &List<Value>,
    book: &B,
) -> Result<Value, ExecFault>
    requires in_book { IsInBook (B.count book.now) kind }
    requires of_kind { All (IsOfKind (B.meaning book.now) kind) values.now }
    ensures { Tells (combined (B.meaning book.now) name distinct kind values.now) result }
{
    match name {
        AggName::Count => made(count_of(alloc, kind, distinct, values.as_slice(), book)),
        AggName::Min => made(least_of(alloc, kind, values, book)),
        AggName::Max => made(greatest_of(alloc, kind, values, book)),
        AggName::Sum => sum_of(values),
    }
}

/// Appends the value of an expression in a row.
fn put_alone<B: Book, W>(
    alloc: Global,
    x: &TypedExpr,
    row: &Row,
    book: &B,
    work: &mut Steps<W>,
    values: &mut List<Value>,
) -> Result<(), ExecFault>
    requires fit { IsFit (B.count book.now) x.now }
    requires row { All IsKept row.now }
    requires kept { All IsKept values.old }
    ensures told { TellsOf
        (appended values.old (value_in (B.meaning book.now) (alone row.now) x.now))
        values.new result }
    ensures kept { All IsKept values.new }
    ensures work { GoesOn (has_like x.now) work.old work.new }
{
    let none = Row::new(alloc);
    let subject = LentSubject {
        row,
        aggregates: &none,
    };
    put_value(alloc, x, &subject, book, work, values)
}

/// Appends the values of an expression in each of these rows.
fn put_column<B: Book, W>(
    alloc: Global,
    x: &TypedExpr,
    rows: &[&Row],
    book: &B,
    work: &mut Steps<W>,
    values: &mut List<Value>,
) -> Result<(), ExecFault>
    requires fit { IsFit (B.count book.now) x.now }
    requires rows { All (λ row. All IsKept row.now) rows.now }
    requires kept { All IsKept values.old }
    ensures told { TellsOf
        (with_all (λ row. value_in (B.meaning book.now) (alone row.now) x.now)
        values.old rows.now) values.new result }
    ensures kept { All IsKept values.new }
    ensures work { GoesOn (has_like x.now) work.old work.new }
{
    for row in rows {
        match put_alone(alloc, x, row, book, work, values) {
            Ok(()) => {}
            Err(fault) => return Err(fault),
        }
    }
    Ok(())
}

/// The value of an aggregate of an argument over rows.
fn over_argument<B: Book, W>(
    alloc: Global,
    name: AggName,
    distinct: bool,
    x: &TypedExpr,
    rows: &[&Row],
    book: &B,
    work: &mut Steps<W>,
) -> Result<Value, ExecFault>
    requires fit { IsFit (B.count book.now) x.now }
    requires in_book { IsInBook (B.count book.now) (kind_of x.now.ty) }
    requires rows { All (λ row. All IsKept row.now) rows.now }
    requires kinds { All (λ row. GivesKind (B.meaning book.now) row.now x.now) rows.now }
    ensures told { Tells
        (option_and_then (combined (B.meaning book.now) name distinct (kind_of x.now.ty))
        (column_of (B.meaning book.now) x.now (map (λ row. row.now) rows.now))) result }
    ensures kept { IfOk result IsKept }
    ensures work { GoesOn (has_like x.now) work.old work.new }
{
    let mut values = List::new(alloc);
    match put_column(alloc, x, rows, book, work, &mut values) {
        Ok(()) => combine(alloc, name, distinct, kind_of(x.ty), &values, book),
        Err(fault) => Err(fault),
    }
}

/// LIKE stands in an expression where it stands in an operand.
fn like_law(e: &TypedExpr)
    ensures { has_like e.now ≡ false
        → All (λ x. has_like x ≡ false) (node_parts (out-Node e.now.node)) }
{}

/// The value of an aggregate over rows.
fn over_rows<B: Book, W>(
    alloc: Global,
    aggregate: &TypedExpr,
    rows: &[&Row],
    book: &B,
    work: &mut Steps<W>,
) -> Result<Value, ExecFault>
    requires fit { IsFitAggregate (B.count book.now) aggregate.now }
    requires rows { All (λ row. All IsKept row.now) rows.now }
    requires kinds { All (λ row. NodeGivesKind (B.meaning book.now) row.now
        (out-Node aggregate.now.node)) rows.now }
    ensures told { Tells
        (aggregate_over (B.meaning book.now) (map (λ row. row.now) rows.now) aggregate.now) result }
    ensures kept { IfOk result IsKept }
    ensures work { GoesOn (has_like aggregate.now) work.old work.new }
{
    like_law(aggregate);
    match &aggregate.node {
        Node::Aggregate {
            name,
            distinct,
            arg,
            ..
        } => match arg {
            Some(x) => over_argument(alloc, *name, *distinct, x.get(), rows, book, work),
            None => made(number(rows.len())),
        },
        _ => Ok(Value::Null),
    }
}

/// Appends the value of an aggregate over rows.
fn put_aggregate<B: Book, W>(
    alloc: Global,
    aggregate: &TypedExpr,
    rows: &[&Row],
    book: &B,
    work: &mut Steps<W>,
    values: &mut Row,
) -> Result<(), ExecFault>
    requires fit { IsFitAggregate (B.count book.now) aggregate.now }
    requires rows { All (λ row. All IsKept row.now) rows.now }
    requires kinds { All (λ row. NodeGivesKind (B.meaning book.now) row.now
        (out-Node aggregate.now.node)) rows.now }
    requires kept { All IsKept values.old }
    ensures told { TellsOf (appended values.old (aggregate_over (B.meaning book.now)
        (map (λ row. row.now) rows.now) aggregate.now)) values.new result }
    ensures kept { All IsKept values.new }
    ensures work { GoesOn (has_like aggregate.now) work.old work.new }
{
    match over_rows(alloc, aggregate, rows, book, work) {
        Ok(it) => {
            values.push(it)?;
            Ok(())
        }
        Err(fault) => Err(fault),
    }
}

/// Appends the values of aggregates over rows.
pub(crate) fn put_aggregates<B: Book, W>(
    alloc: Global,
    aggregates: &[&TypedExpr],
    rows: &[&Row],
    book: &B,
    work: &mut Steps<W>,
    values: &mut Row,
) -> Result<(), ExecFault>
    requires fit { All (λ it. IsFitAggregate (B.count book.now) it.now) aggregates.now }
    requires rows { All (λ row. IsAggregable (B.meaning book.now)
        (map (λ it. it.now) aggregates.now) row.now) rows.now }
    requires kept { All IsKept values.old }
    ensures told { TellsOf (with_all (λ it. aggregate_over (B.meaning book.now)
        (map (λ row. row.now) rows.now) it.now) values.old aggregates.now) values.new result }
    ensures kept { All IsKept values.new }
    ensures work { GoesOn (list_any (λ it. has_like it.now) aggregates.now) work.old work.new }
{
    for aggregate in aggregates {
        match put_aggregate(alloc, aggregate, rows, book, work, values) {
            Ok(()) => {}
            Err(fault) => return Err(fault),
        }
    }
    Ok(())
}
