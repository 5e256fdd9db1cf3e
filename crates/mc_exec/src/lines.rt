ghost use Rattle.mc_eval.specs.Fit.{has_like};
ghost use Rattle.mc_eval.specs.Outcomes.{IsKept};
ghost use Rattle.mc_exec.specs.Ready.{IsFitStatement, IsKeptSubject};
ghost use Rattle.mc_exec.specs.Shown.{line_in};
ghost use Rattle.mc_exec.specs.Steps.{GoesOn, appended};
ghost use Rattle.mc_exec.specs.Told.{Finds, TellsOf};
ghost use Rattle.std.specs.List.{list_any};
ghost use Rattle.std.specs.Prelude.{◌≡◌, ◌||◌, [], All, option_map};

use crate::fault::ExecFault;
use crate::keys::{put_key_values, put_values};
use crate::subject::LentSubject;
use mc_base::{List, Steps};
use mc_order::Book;
use mc_typing::Typed;
use mc_values::Row;
use std::alloc::Global;

/// Appends the values of the items, and those of the keys.
fn put_line<B: Book, W>(
    alloc: Global,
    q: &Typed,
    subject: &LentSubject,
    book: &B,
    work: &mut Steps<W>,
    items: &mut Row,
    keys: &mut Row,
) -> Result<(), ExecFault>
    requires fit { IsFitStatement (B.count book.now) q.now }
    requires subject { IsKeptSubject subject.now }
    requires no_items { items.old ≡ [] }
    requires no_keys { keys.old ≡ [] }
    ensures told { TellsOf (line_in (B.meaning book.now) q.now subject.now)
        (record { items = items.new; keys = keys.new }) result }
    ensures kept { All IsKept items.new }
    ensures work { GoesOn (list_any has_like q.now.items
        || list_any (λ key. has_like key.expr) q.now.orders) work.old work.new }
{
    match put_values(alloc, q.items.as_slice(), subject, book, work, items) {
        Ok(()) => put_key_values(alloc, q.orders.as_slice(), subject, book, work, keys),
        Err(fault) => Err(fault),
    }
}

/// Appends the row of the items' values; the keys are evaluated too.
pub(crate) fn put_items<B: Book, W>(
    alloc: Global,
    q: &Typed,
    subject: &LentSubject,
    book: &B,
    work: &mut Steps<W>,
    rows: &mut List<Row>,
) -> Result<(), ExecFault>
    requires fit { IsFitStatement (B.count book.now) q.now }
    requires subject { IsKeptSubject subject.now }
    requires kept { All (All IsKept) rows.old }
    ensures told { TellsOf (appended rows.old (option_map (λ line. line.items)
        (line_in (B.meaning book.now) q.now subject.now))) rows.new result }
    ensures kept { All (All IsKept) rows.new }
    ensures work { GoesOn (list_any has_like q.now.items
        || list_any (λ key. has_like key.expr) q.now.orders) work.old work.new }
{
    let mut keys = Row::new(alloc);
    let mut items = Row::new(alloc);
    match put_line(alloc, q, subject, book, work, &mut items, &mut keys) {
        Ok(()) => {
            rows.push(items)?;
            Ok(())
        }
        Err(fault) => {
            drop(items);
            Err(fault)
        }
    }
}

/// Whether the items and the keys can be evaluated.
pub(crate) fn check_line<B: Book, W>(
    alloc: Global,
    q: &Typed,
    subject: &LentSubject,
    book: &B,
    work: &mut Steps<W>,
) -> Result<(), ExecFault>
    requires fit { IsFitStatement (B.count book.now) q.now }
    requires subject { IsKeptSubject subject.now }
    ensures told { Finds (line_in (B.meaning book.now) q.now subject.now) result }
    ensures work { GoesOn (list_any has_like q.now.items
        || list_any (λ key. has_like key.expr) q.now.orders) work.old work.new }
{
    let mut items = Row::new(alloc);
    let mut keys = Row::new(alloc);
    match put_line(alloc, q, subject, book, work, &mut items, &mut keys) {
        Ok(()) => Ok(()),
        Err(fault) => Err(fault),
    }
}
