ghost use Rattle.mc_eval.specs.Fit.{has_like};
ghost use Rattle.mc_eval.specs.Outcomes.{IsKept};
ghost use Rattle.mc_exec.specs.Given.{keys_in, value_in, values_in};
ghost use Rattle.mc_exec.specs.Ready.{IsKeptSubject};
ghost use Rattle.mc_exec.specs.Steps.{GoesOn, IsFit, appended, with_all};
ghost use Rattle.mc_exec.specs.Told.{TellsOf};
ghost use Rattle.std.specs.List.{list_any};
ghost use Rattle.std.specs.Prelude.{All};

use crate::fault::ExecFault;
use crate::subject::LentSubject;
use mc_base::{List, Steps};
use mc_eval::eval;
use mc_order::Book;
use mc_typing::{TypedExpr, TypedOrder};
use mc_values::Row;
use std::alloc::Global;

/// Appends the value of an expression.
pub(crate) fn put_value<B: Book, W>(
    alloc: Global,
    e: &TypedExpr,
    subject: &LentSubject,
    book: &B,
    work: &mut Steps<W>,
    values: &mut Row,
) -> Result<(), ExecFault>
    requires fit { IsFit (B.count book.now) e.now }
    requires subject { IsKeptSubject subject.now }
    requires kept { All IsKept values.old }
    ensures told { TellsOf
        (appended values.old (value_in (B.meaning book.now) subject.now e.now)) values.new result }
    ensures kept { All IsKept values.new }
    ensures work { GoesOn (has_like e.now) work.old work.new }
{
    match eval(alloc, e, subject.row, subject.aggregates, book, work) {
        Ok(value) => {
            values.push(value)?;
            Ok(())
        }
        Err(fault) => Err(ExecFault::of(fault)),
    }
}

/// Appends the values of expressions.
pub(crate) fn put_values<B: Book, W>(
    alloc: Global,
    exprs: &[TypedExpr],
    subject: &LentSubject,
    book: &B,
    work: &mut Steps<W>,
    values: &mut Row,
) -> Result<(), ExecFault>
    requires fit { All (IsFit (B.count book.now)) exprs.now }
    requires subject { IsKeptSubject subject.now }
    requires kept { All IsKept values.old }
    ensures told { TellsOf
        (with_all (value_in (B.meaning book.now) subject.now) values.old exprs.now)
        values.new result }
    ensures kept { All IsKept values.new }
    ensures work { GoesOn (list_any has_like exprs.now) work.old work.new }
{
    for e in exprs {
        match put_value(alloc, e, subject, book, work, values) {
            Ok(()) => {}
            Err(fault) => return Err(fault),
        }
    }
    Ok(())
}

/// Appends the row of expressions' values.
pub(crate) fn put_row<B: Book, W>(
    alloc: Global,
    exprs: &[TypedExpr],
    subject: &LentSubject,
    book: &B,
    work: &mut Steps<W>,
    rows: &mut List<Row>,
) -> Result<(), ExecFault>
    requires fit { All (IsFit (B.count book.now)) exprs.now }
    requires subject { IsKeptSubject subject.now }
    requires kept { All (All IsKept) rows.old }
    ensures told { TellsOf
        (appended rows.old (values_in (B.meaning book.now) exprs.now subject.now))
        rows.new result }
    ensures kept { All (All IsKept) rows.new }
    ensures work { GoesOn (list_any has_like exprs.now) work.old work.new }
{
    let mut values = Row::new(alloc);
    match put_values(alloc, exprs, subject, book, work, &mut values) {
        Ok(()) => {
            rows.push(values)?;
            Ok(())
        }
        Err(fault) => {
            drop(values);
            Err(fault)
        }
    }
}

/// Appends the values of keys.
pub(crate) fn put_key_values<B: Book, W>(
    alloc: Global,
    orders: &[TypedOrder],
    subject: &LentSubject,
    book: &B,
    work: &mut Steps<W>,
    values: &mut Row,
) -> Result<(), ExecFault>
    requires fit { All (λ key. IsFit (B.count book.now) key.expr) orders.now }
    requires subject { IsKeptSubject subject.now }
    requires kept { All IsKept values.old }
    ensures told { TellsOf
        (with_all (λ key. value_in (B.meaning book.now) subject.now key.expr)
        values.old orders.now) values.new result }
    ensures kept { All IsKept values.new }
    ensures work { GoesOn (list_any (λ key. has_like key.expr) orders.now) work.old work.new }
{
    for key in orders {
        match put_value(alloc, &key.expr, subject, book, work, values) {
            Ok(()) => {}
            Err(fault) => return Err(fault),
        }
    }
    Ok(())
}

/// Appends the row of the keys' values.
fn put_keys<B: Book, W>(
    alloc: Global,
    orders: &[TypedOrder],
    subject: &LentSubject,
    book: &B,
    work: &mut Steps<W>,
    keys: &mut List<Row>,
) -> Result<(), ExecFault>
    requires fit { All (λ key. IsFit (B.count book.now) key.expr) orders.now }
    requires subject { IsKeptSubject subject.now }
    requires kept { All (All IsKept) keys.old }
    ensures told { TellsOf
        (appended keys.old (keys_in (B.meaning book.now) orders.now subject.now))
        keys.new result }
    ensures kept { All (All IsKept) keys.new }
    ensures work { GoesOn (list_any (λ key. has_like key.expr) orders.now) work.old work.new }
{
    let mut values = Row::new(alloc);
    match put_key_values(alloc, orders, subject, book, work, &mut values) {
        Ok(()) => {
            keys.push(values)?;
            Ok(())
        }
        Err(fault) => {
            drop(values);
            Err(fault)
        }
    }
}

/// Appends the rows of the keys' values in each of these subjects.
pub(crate) fn put_all_keys<B: Book, W>(
    alloc: Global,
    orders: &[TypedOrder],
    subjects: &[LentSubject],
    book: &B,
    work: &mut Steps<W>,
    keys: &mut List<Row>,
) -> Result<(), ExecFault>
    requires fit { All (λ key. IsFit (B.count book.now) key.expr) orders.now }
    requires subjects { All IsKeptSubject subjects.now }
    requires kept { All (All IsKept) keys.old }
    ensures told { TellsOf
        (with_all (keys_in (B.meaning book.now) orders.now) keys.old subjects.now)
        keys.new result }
    ensures kept { All (All IsKept) keys.new }
    ensures work { GoesOn (list_any (λ key. has_like key.expr) orders.now) work.old work.new }
{
    for subject in subjects {
        match put_keys(alloc, orders, subject, book, work, keys) {
            Ok(()) => {}
            Err(fault) => return Err(fault),
        }
    }
    Ok(())
}
