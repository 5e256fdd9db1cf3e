ghost use Rattle.mc_key.specs.Keys.{AreBoundNumbers};
ghost use Rattle.mc_range.specs.Bounds.{HasBounds};
ghost use Rattle.std.specs.List.{All};
ghost use Rattle.std.specs.Prelude.{IfOk, IfSome};

use mc_base::{List, NoMemory, Weights};
use mc_range::Interval;
use std::alloc::Global;

/// The ends of an interval: texts whose characters weigh their bytes and one more, or open ends.
pub(crate) type Ends = (Option<&'static [u8]>, Option<&'static [u8]>);

/// The weights of a text's characters.
fn weights_of(alloc: Global, text: &[u8]) -> Result<Weights, NoMemory>
    ensures { IfOk result AreBoundNumbers }
{
    let mut numbers = Weights::new(alloc);
    for byte in text {
        numbers.push(u32::from(*byte) + 1)?;
    }
    Ok(numbers)
}

/// An end of an interval.
fn end_of(alloc: Global, text: Option<&[u8]>) -> Result<Option<Weights>, NoMemory>
    ensures { IfOk result (λ end. IfSome end AreBoundNumbers) }
{
    match text {
        Some(text) => Ok(Some(weights_of(alloc, text)?)),
        None => Ok(None),
    }
}

/// The interval of two ends.
fn interval_of(alloc: Global, ends: &Ends) -> Result<Interval, NoMemory>
    ensures { IfOk result HasBounds }
{
    let lo = end_of(alloc, ends.0)?;
    let hi = end_of(alloc, ends.1)?;
    Ok(Interval { lo, hi })
}

/// The intervals of these ends, in order.
pub(crate) fn intervals_of(alloc: Global, all: &[Ends]) -> Result<List<Interval>, NoMemory>
    ensures { IfOk result (All HasBounds) }
{
    let mut intervals = List::new(alloc);
    for ends in all {
        intervals.push(interval_of(alloc, ends)?)?;
    }
    Ok(intervals)
}
