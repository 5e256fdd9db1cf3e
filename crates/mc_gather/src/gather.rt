ghost use Rattle.mc_gather.specs.Runs.{HasRunRows, places_from, rows_at, run_of};
ghost use Rattle.mc_gather.specs.Through.{AreBounds, AreRowsThrough};
ghost use Rattle.mc_index.specs.Digits.{binary_digits};
ghost use Rattle.mc_index.specs.Places.{end_place, first_place};
ghost use Rattle.mc_key.specs.Keys.{AreBoundNumbers};
ghost use Rattle.mc_order.specs.Laws.{greatest_weight};
ghost use Rattle.mc_range.specs.Bounds.{HasBounds};
ghost use Rattle.std.specs.List.{range_with_len};
ghost use Rattle.std.specs.List.Sorted.{IsNonDecreasingBy, IsPermutation};
ghost use Rattle.std.specs.Prelude.{
  ◌≡◌,
  ◌≤◌,
  ◌+◌,
  ◌*◌,
  ◌-◌,
  ◌++◌,
  [],
  All,
  IfOk,
  IfSome,
  OnOk,
  length,
  map,
};

use mc_base::{List, NoMemory, Steps, Weights};
use mc_index::{Index, Side, index_law};
use mc_key::make_bound;
use mc_order::Pad;
use mc_range::Interval;
use std::alloc::Global;

/// Entries side by side: those from one place on and before another one.
#[derive(Clone, Copy, Debug, PartialEq, Eq)]
pub(crate) struct Run {
    pub(crate) first: usize,
    pub(crate) end: usize,
}

/// Where the entries begin that are not below a lower end.
fn first_place<W>(
    alloc: Global,
    index: &Index,
    pad: Pad,
    space: u32,
    lo: &Option<Weights>,
    work: &mut Steps<W>,
) -> Result<usize, NoMemory>
    requires pad { pad ≡ index.now.pad }
    requires space { space ≡ index.now.space }
    requires bounded { space ≤ greatest_weight }
    requires numbers { IfSome lo.now AreBoundNumbers }
    ensures is { IfOk result (λ place. place ≡ first_place index.now lo.now) }
    ensures later { work.old ≤ work.new }
    ensures work { work.new ≤ work.old + binary_digits (length index.now.entries) }
{
    match lo {
        Some(numbers) => {
            let bound = make_bound(alloc, numbers, pad, space)?;
            Ok(index.seek(&bound, Side::Before, work))
        }
        None => Ok(0),
    }
}

/// Where the entries have ended that are not above an upper end.
fn end_place<W>(
    alloc: Global,
    index: &Index,
    pad: Pad,
    space: u32,
    hi: &Option<Weights>,
    work: &mut Steps<W>,
) -> Result<usize, NoMemory>
    requires pad { pad ≡ index.now.pad }
    requires space { space ≡ index.now.space }
    requires bounded { space ≤ greatest_weight }
    requires numbers { IfSome hi.now AreBoundNumbers }
    ensures is { IfOk result (λ place. place ≡ end_place index.now hi.now) }
    ensures later { work.old ≤ work.new }
    ensures work { work.new ≤ work.old + binary_digits (length index.now.entries) }
{
    match hi {
        Some(numbers) => {
            let bound = make_bound(alloc, numbers, pad, space)?;
            Ok(index.seek(&bound, Side::After, work))
        }
        None => Ok(index.len()),
    }
}

/// Where the entries of an interval stand.
fn run_of<W>(
    alloc: Global,
    index: &Index,
    pad: Pad,
    space: u32,
    interval: &Interval,
    work: &mut Steps<W>,
) -> Result<Run, NoMemory>
    requires pad { pad ≡ index.now.pad }
    requires space { space ≡ index.now.space }
    requires bounded { space ≤ greatest_weight }
    requires bounds { HasBounds interval.now }
    ensures is { IfOk result (λ run. run ≡ run_of index.now interval.now) }
    ensures later { work.old ≤ work.new }
    ensures work { work.new ≤ work.old + 2 * binary_digits (length index.now.entries) }
{
    let first = first_place(alloc, index, pad, space, &interval.lo, work)?;
    let end = end_place(alloc, index, pad, space, &interval.hi, work)?;
    Ok(Run { first, end })
}

/// Appends the runs of intervals to a list without any.
fn put_runs<W>(
    alloc: Global,
    index: &Index,
    pad: Pad,
    space: u32,
    intervals: &[Interval],
    work: &mut Steps<W>,
    runs: &mut Vec<Run>,
) -> Result<(), NoMemory>
    requires pad { pad ≡ index.now.pad }
    requires space { space ≡ index.now.space }
    requires bounded { space ≤ greatest_weight }
    requires bounds { All HasBounds intervals.now }
    requires none { runs.old.items ≡ [] }
    ensures are { OnOk result (runs.new.items ≡ map (run_of index.now) intervals.now) }
    ensures later { work.old ≤ work.new }
    ensures work { work.new
        ≤ work.old + length intervals.now * (2 * binary_digits (length index.now.entries)) }
{
    for interval in intervals {
        runs.push(run_of(alloc, index, pad, space, interval, work)?)?;
    }
    Ok(())
}

/// Sorts runs by the places where they begin.
fn sort_runs(runs: &mut Vec<Run>)
    ensures permutation { IsPermutation runs.old.items runs.new.items }
    ensures sorted { IsNonDecreasingBy (λ run. run.first) runs.new.items }
{
    runs.sort_unstable_by(|one, other| one.first.cmp(&other.first));
}

/// Appends the rows of the entries from one place on and before another one.
fn push_rows(index: &Index, from: usize, end: usize, rows: &mut Vec<u32>) -> Result<(), NoMemory>
    requires { end ≤ length index.now.entries }
    ensures { OnOk result
        (rows.new.items ≡ rows.old.items ++ rows_at index.now (range_with_len from (end - from))) }
{
    for place in from..end {
        rows.push(index.row_at(place))?;
    }
    Ok(())
}

/// Appends the rows of runs that ascend, each once.
fn push_runs(index: &Index, runs: &[Run], rows: &mut Vec<u32>) -> Result<(), NoMemory>
    requires { All (λ run. run.end ≤ length index.now.entries) runs.now }
    ensures { OnOk result
        (rows.new.items ≡ rows.old.items ++ rows_at index.now (places_from 0 runs.now)) }
{
    let mut done = 0;
    for run in runs {
        push_rows(index, run.first.max(done), run.end, rows)?;
        done = done.max(run.end);
    }
    Ok(())
}

/// Appends the rows of entries in intervals to a list without any, each once.
fn put_rows<W>(
    alloc: Global,
    index: &Index,
    pad: Pad,
    space: u32,
    intervals: &[Interval],
    work: &mut Steps<W>,
    rows: &mut Vec<u32>,
) -> Result<(), NoMemory>
    requires pad { pad ≡ index.now.pad }
    requires space { space ≡ index.now.space }
    requires bounds { AreBounds index.now intervals.now }
    requires none { rows.old.items ≡ [] }
    ensures are { OnOk result (HasRunRows index.now intervals.now rows.new.items) }
    ensures later { work.old ≤ work.new }
    ensures work { work.new
        ≤ work.old + length intervals.now * (2 * binary_digits (length index.now.entries)) }
{
    let mut runs = Vec::new(alloc);
    put_runs(alloc, index, pad, space, intervals, work, &mut runs)?;
    sort_runs(&mut runs);
    push_runs(index, runs.as_slice(), rows)?;
    Ok(())
}

/// The numbers of the rows that an index has in intervals, each once, in ascending order. `pad` and
/// `space` are those of the index's keys. It seeks the ends of each interval, and compares no other
/// entry. MySQL 8.0 manual, 8.2.1.2.
pub fn rows_through<W>(
    alloc: Global,
    index: &Index,
    pad: Pad,
    space: u32,
    intervals: &[Interval],
    work: &mut Steps<W>,
) -> Result<List<u32>, NoMemory>
    requires pad { pad ≡ index.now.pad }
    requires space { space ≡ index.now.space }
    requires bounds { AreBounds index.now intervals.now }
    ensures are { IfOk result (AreRowsThrough index.now intervals.now) }
    ensures later { work.old ≤ work.new }
    ensures work { work.new
        ≤ work.old + length intervals.now * (2 * binary_digits (length index.now.entries)) }
{
    index_law(index);
    let mut rows = Vec::new(alloc);
    put_rows(alloc, index, pad, space, intervals, work, &mut rows)?;
    rows.sort_unstable();
    List::from_slice(alloc, rows.as_slice())
}
