ghost use Rattle.mc_eval.specs.Fit.{has_like};
ghost use Rattle.mc_eval.specs.Outcomes.{IsKept};
ghost use Rattle.mc_exec.specs.FullScan.{arranged};
ghost use Rattle.mc_exec.specs.Given.{all_of, keys_of};
ghost use Rattle.mc_exec.specs.Ordered.{kinds_of};
ghost use Rattle.mc_exec.specs.Ready.{IsFitStatement, IsShowable};
ghost use Rattle.mc_exec.specs.Shown.{line_in};
ghost use Rattle.mc_exec.specs.Steps.{GoesOn};
ghost use Rattle.mc_exec.specs.Told.{TellsOf};
ghost use Rattle.mc_group.specs.Kinds.{IsKeyRow};
ghost use Rattle.std.specs.List.{list_any};
ghost use Rattle.std.specs.Prelude.{◌≡◌, ◌||◌, [], All, Some, option_map};

use crate::fault::ExecFault;
use crate::keys::put_all_keys;
use crate::order::ordered_places;
use crate::shown::put_all_shown;
use crate::subject::LentSubject;
use mc_base::{List, Steps};
use mc_order::Book;
use mc_typing::Typed;
use mc_values::Row;
use std::alloc::Global;

/// Appends the rows of the items' values in the order of these keys, within the limit.
fn put_in_order<B: Book, W>(
    alloc: Global,
    q: &Typed,
    subjects: &[LentSubject],
    keys: &List<Row>,
    book: &B,
    work: &mut Steps<W>,
    shown: &mut List<Row>,
) -> Result<(), ExecFault>
    requires fit { IsFitStatement (B.count book.now) q.now }
    requires subjects { All (IsShowable (B.meaning book.now) q.now) subjects.now }
    requires key_rows { All (IsKeyRow (B.meaning book.now) (kinds_of q.now.orders)) keys.now }
    requires keys { keys_of (B.meaning book.now) q.now.orders subjects.now ≡ Some keys.now }
    requires none { shown.old ≡ [] }
    ensures told { TellsOf (option_map (arranged (B.meaning book.now) q.now)
        (all_of (line_in (B.meaning book.now) q.now) subjects.now)) shown.new result }
    ensures kept { All (All IsKept) shown.new }
    ensures work { GoesOn (list_any has_like q.now.items) work.old work.new }
{
    match ordered_places(alloc, q.orders.as_slice(), keys, book) {
        Ok(places) => put_all_shown(
            alloc,
            q.items.as_slice(),
            q.limit,
            subjects,
            places.as_slice(),
            book,
            work,
            shown,
        ),
        Err(error) => Err(ExecFault::from(error)),
    }
}

/// Appends the rows that are shown of subjects to a list without any.
pub(crate) fn put_arranged<B: Book, W>(
    alloc: Global,
    q: &Typed,
    subjects: &[LentSubject],
    book: &B,
    work: &mut Steps<W>,
    shown: &mut List<Row>,
) -> Result<(), ExecFault>
    requires fit { IsFitStatement (B.count book.now) q.now }
    requires subjects { All (IsShowable (B.meaning book.now) q.now) subjects.now }
    requires none { shown.old ≡ [] }
    ensures told { TellsOf (option_map (arranged (B.meaning book.now) q.now)
        (all_of (line_in (B.meaning book.now) q.now) subjects.now)) shown.new result }
    ensures kept { All (All IsKept) shown.new }
    ensures work { GoesOn (list_any has_like q.now.items
        || list_any (λ key. has_like key.expr) q.now.orders) work.old work.new }
{
    let mut keys = List::new(alloc);
    match put_all_keys(alloc, q.orders.as_slice(), subjects, book, work, &mut keys) {
        Ok(()) => put_in_order(alloc, q, subjects, &keys, book, work, shown),
        Err(fault) => {
            drop(keys);
            Err(fault)
        }
    }
}
