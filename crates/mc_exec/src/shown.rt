ghost use Rattle.mc_eval.specs.Fit.{has_like};
ghost use Rattle.mc_eval.specs.Outcomes.{IsKept};
ghost use Rattle.mc_exec.specs.Given.{alone, values_in};
ghost use Rattle.mc_exec.specs.Ready.{IsKeptSubject};
ghost use Rattle.mc_exec.specs.Steps.{
  GoesOn,
  IsFit,
  is_shown,
  shown_with,
  with_shown,
};
ghost use Rattle.mc_exec.specs.Told.{TellsOf};
ghost use Rattle.std.specs.Option.{option_map};
ghost use Rattle.std.specs.List.{list_any};
ghost use Rattle.std.specs.Prelude.{
  ◌≡◌,
  ◌<◌,
  [],
  All,
  OnOk,
  length,
  slice_index_or,
};

use crate::fault::ExecFault;
use crate::keys::put_values;
use crate::subject::LentSubject;
use mc_base::{List, NoMemory, Steps};
use mc_order::Book;
use mc_typing::TypedExpr;
use mc_values::Row;
use std::alloc::Global;

/// Whether a row at this place of the order is within the limit, an offset and a count.
fn is_shown(limit: Option<(u64, u64)>, place: u64) -> bool
    ensures { result ≡ is_shown limit place }
{
    match limit {
        None => true,
        Some((offset, count)) => offset <= place && place - offset < count,
    }
}

/// Appends a row, if its place is within the limit.
fn push_shown(
    limit: Option<(u64, u64)>,
    place: u64,
    values: Row,
    shown: &mut List<Row>,
) -> Result<(), NoMemory>
    requires values { All IsKept values }
    requires kept { All (All IsKept) shown.old }
    ensures ok { OnOk result (shown.new ≡ shown_with limit place shown.old values) }
    ensures kept { All (All IsKept) shown.new }
{
    if is_shown(limit, place) {
        return shown.push(values);
    }
    drop(values);
    Ok(())
}

/// Appends the row of the items' values, if its place is within the limit.
fn put_shown<B: Book, W>(
    alloc: Global,
    items: &[TypedExpr],
    limit: Option<(u64, u64)>,
    place: u64,
    subject: &LentSubject,
    book: &B,
    work: &mut Steps<W>,
    shown: &mut List<Row>,
) -> Result<(), ExecFault>
    requires fit { All (IsFit (B.count book.now)) items.now }
    requires subject { IsKeptSubject subject.now }
    requires kept { All (All IsKept) shown.old }
    ensures told { TellsOf
        (option_map (shown_with limit place shown.old)
        (values_in (B.meaning book.now) items.now subject.now)) shown.new result }
    ensures kept { All (All IsKept) shown.new }
    ensures work { GoesOn (list_any has_like items.now) work.old work.new }
{
    let mut values = Row::new(alloc);
    match put_values(alloc, items, subject, book, work, &mut values) {
        Ok(()) => {
            push_shown(limit, place, values, shown)?;
            Ok(())
        }
        Err(fault) => {
            drop(values);
            Err(fault)
        }
    }
}

/// Appends the rows of the items' values in the subjects at these places, as far as they are within
/// the limit; those behind it are evaluated too.
pub(crate) fn put_all_shown<B: Book, W>(
    alloc: Global,
    items: &[TypedExpr],
    limit: Option<(u64, u64)>,
    subjects: &[LentSubject],
    places: &[u32],
    book: &B,
    work: &mut Steps<W>,
    shown: &mut List<Row>,
) -> Result<(), ExecFault>
    requires fit { All (IsFit (B.count book.now)) items.now }
    requires subjects { All IsKeptSubject subjects.now }
    requires places { All (λ place. place < length subjects.now) places.now }
    requires kept { All (All IsKept) shown.old }
    ensures told { TellsOf
        (with_shown (λ place. values_in (B.meaning book.now) items.now
        (slice_index_or subjects.now place (alone []))) limit 0 shown.old places.now)
        shown.new result }
    ensures kept { All (All IsKept) shown.new }
    ensures work { GoesOn (list_any has_like items.now) work.old work.new }
{
    for (n, place) in places.iter().enumerate() {
        let subject = &subjects[*place as usize];
        match put_shown(alloc, items, limit, n as u64, subject, book, work, shown) {
            Ok(()) => {}
            Err(fault) => return Err(fault),
        }
    }
    Ok(())
}
