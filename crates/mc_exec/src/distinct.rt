ghost use Rattle.mc_eval.specs.Fit.{has_like};
ghost use Rattle.mc_eval.specs.Outcomes.{IsKept};
ghost use Rattle.mc_exec.specs.FullScan.{distinct, finish};
ghost use Rattle.mc_exec.specs.Given.{all_of};
ghost use Rattle.mc_exec.specs.Ready.{IsFitStatement, IsShowable};
ghost use Rattle.mc_exec.specs.Shown.{line_in};
ghost use Rattle.mc_exec.specs.Steps.{GoesOn, picked, with_all};
ghost use Rattle.mc_exec.specs.Told.{Finds, TellsOf};
ghost use Rattle.std.specs.List.{list_any};
ghost use Rattle.std.specs.Prelude.{
  ◌≡◌,
  ◌||◌,
  [],
  All,
  OnOk,
  Some,
  length,
  option_map,
  true,
};

use crate::fault::ExecFault;
use crate::finished::put_arranged;
use crate::lines::put_items;
use crate::numbers::value_numbers;
use crate::subject::LentSubject;
use mc_base::{List, NoMemory, Steps};
use mc_group::group_laws;
use mc_order::Book;
use mc_typing::Typed;
use mc_values::Row;
use std::alloc::Global;

/// Appends the rows of the items' values in each of these subjects; the keys are evaluated too.
fn put_all_items<B: Book, W>(
    alloc: Global,
    q: &Typed,
    subjects: &[LentSubject],
    book: &B,
    work: &mut Steps<W>,
    rows: &mut List<Row>,
) -> Result<(), ExecFault>
    requires fit { IsFitStatement (B.count book.now) q.now }
    requires subjects { All (IsShowable (B.meaning book.now) q.now) subjects.now }
    requires kept { All (All IsKept) rows.old }
    ensures told { TellsOf (with_all (λ subject. option_map (λ line. line.items)
        (line_in (B.meaning book.now) q.now subject)) rows.old subjects.now) rows.new result }
    ensures kept { All (All IsKept) rows.new }
    ensures work { GoesOn (list_any has_like q.now.items
        || list_any (λ key. has_like key.expr) q.now.orders) work.old work.new }
{
    for subject in subjects {
        match put_items(alloc, q, subject, book, work, rows) {
            Ok(()) => {}
            Err(fault) => return Err(fault),
        }
    }
    Ok(())
}

/// Appends the members at which a number is the next one that is new.
fn put_picked<'a, 'b>(
    subjects: &[LentSubject<'a, 'b>],
    numbers: &[u32],
    firsts: &mut List<LentSubject<'a, 'b>>,
) -> Result<(), NoMemory>
    requires as_many { length numbers.now ≡ length subjects.now }
    requires none { firsts.old ≡ [] }
    ensures { OnOk result (firsts.new ≡ picked 0 numbers.now subjects.now) }
{
    for (i, subject) in subjects.iter().enumerate() {
        if numbers[i] as usize == firsts.len() {
            firsts.push(subject.again())?;
        }
    }
    Ok(())
}

/// Appends the subjects whose items, which `rows` has, are those of no earlier one.
fn put_firsts<'a, 'b, B: Book>(
    alloc: Global,
    q: &Typed,
    subjects: &[LentSubject<'a, 'b>],
    rows: &List<Row>,
    book: &B,
    firsts: &mut List<LentSubject<'a, 'b>>,
) -> Result<(), NoMemory>
    requires fit { IsFitStatement (B.count book.now) q.now }
    requires subjects { All (IsShowable (B.meaning book.now) q.now) subjects.now }
    requires rows { all_of (λ subject. option_map (λ line. line.items)
        (line_in (B.meaning book.now) q.now subject)) subjects.now ≡ Some rows.now }
    requires kept { All (All IsKept) rows.now }
    requires none { firsts.old ≡ [] }
    ensures told { OnOk result (all_of (line_in (B.meaning book.now) q.now) firsts.new
        ≡ option_map (distinct (B.meaning book.now) q.now true)
        (all_of (line_in (B.meaning book.now) q.now) subjects.now)) }
    ensures subjects { OnOk result (All (IsShowable (B.meaning book.now) q.now) firsts.new) }
{
    group_laws();
    let numbers = value_numbers(alloc, q.items.as_slice(), rows, book)?;
    put_picked(subjects, numbers.as_slice(), firsts)
}

/// Appends the subjects whose items are those of no earlier one to none.
fn put_unlike<'a, 'b, B: Book, W>(
    alloc: Global,
    q: &Typed,
    subjects: &[LentSubject<'a, 'b>],
    book: &B,
    work: &mut Steps<W>,
    firsts: &mut List<LentSubject<'a, 'b>>,
) -> Result<(), ExecFault>
    requires fit { IsFitStatement (B.count book.now) q.now }
    requires subjects { All (IsShowable (B.meaning book.now) q.now) subjects.now }
    requires none { firsts.old ≡ [] }
    ensures told { Finds (all_of (line_in (B.meaning book.now) q.now) subjects.now) result }
    ensures lines { OnOk result (all_of (line_in (B.meaning book.now) q.now) firsts.new
        ≡ option_map (distinct (B.meaning book.now) q.now true)
        (all_of (line_in (B.meaning book.now) q.now) subjects.now)) }
    ensures subjects { OnOk result (All (IsShowable (B.meaning book.now) q.now) firsts.new) }
    ensures work { GoesOn (list_any has_like q.now.items
        || list_any (λ key. has_like key.expr) q.now.orders) work.old work.new }
{
    let mut rows = List::new(alloc);
    match put_all_items(alloc, q, subjects, book, work, &mut rows) {
        Ok(()) => match put_firsts(alloc, q, subjects, &rows, book, firsts) {
            Ok(()) => Ok(()),
            Err(error) => Err(ExecFault::from(error)),
        },
        Err(fault) => Err(fault),
    }
}

/// Appends the rows that are shown of the subjects without those that are shown before.
fn put_distinct<B: Book, W>(
    alloc: Global,
    q: &Typed,
    subjects: &[LentSubject],
    book: &B,
    work: &mut Steps<W>,
    shown: &mut List<Row>,
) -> Result<(), ExecFault>
    requires fit { IsFitStatement (B.count book.now) q.now }
    requires subjects { All (IsShowable (B.meaning book.now) q.now) subjects.now }
    requires none { shown.old ≡ [] }
    requires distinct { q.now.distinct ≡ true }
    ensures told { TellsOf (finish (B.meaning book.now) q.now subjects.now) shown.new result }
    ensures kept { All (All IsKept) shown.new }
    ensures work { GoesOn (list_any has_like q.now.items
        || list_any (λ key. has_like key.expr) q.now.orders) work.old work.new }
{
    let mut firsts = List::new(alloc);
    match put_unlike(alloc, q, subjects, book, work, &mut firsts) {
        Ok(()) => put_arranged(alloc, q, firsts.as_slice(), book, work, shown),
        Err(fault) => Err(fault),
    }
}

/// Appends the rows that are shown of subjects to a list without any.
pub(crate) fn put_finished<B: Book, W>(
    alloc: Global,
    q: &Typed,
    subjects: &[LentSubject],
    book: &B,
    work: &mut Steps<W>,
    shown: &mut List<Row>,
) -> Result<(), ExecFault>
    requires fit { IsFitStatement (B.count book.now) q.now }
    requires subjects { All (IsShowable (B.meaning book.now) q.now) subjects.now }
    requires none { shown.old ≡ [] }
    ensures told { TellsOf (finish (B.meaning book.now) q.now subjects.now) shown.new result }
    ensures kept { All (All IsKept) shown.new }
    ensures work { GoesOn (list_any has_like q.now.items
        || list_any (λ key. has_like key.expr) q.now.orders) work.old work.new }
{
    if q.distinct {
        put_distinct(alloc, q, subjects, book, work, shown)
    } else {
        put_arranged(alloc, q, subjects, book, work, shown)
    }
}
