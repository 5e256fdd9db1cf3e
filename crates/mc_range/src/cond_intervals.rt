ghost use Rattle.mc_range.specs.Condition.{IsCellOf, IsCondOf};
ghost use Rattle.mc_range.specs.Intervals.{at_least, at_most, between, intervals_of};
ghost use Rattle.std.specs.Prelude.{◌≡◌, ◌∷◌, [], Some, IfOk};

use crate::ends::{lower_end, upper_end};
use crate::equal::{equal_to_any, equal_to_one};
use crate::like::like;
use crate::{Cell, Cond, Interval};
use mc_base::{List, NoMemory};
use mc_order::Collation;
use std::alloc::Global;

/// The intervals in which the lists lie that an index keeps of texts that meet a condition: an
/// index of whole texts, or of their first `prefix` characters. NULL in a condition meets nothing
/// and gives none. None exactly where LIKE has no weights to begin with, or where there would be
/// more than 4,096. MySQL 8.0 manual, 8.2.1.2, Range Optimization.
pub fn intervals<C: Collation>(
    alloc: Global,
    cond: &Cond,
    prefix: Option<u32>,
    collation: &C,
) -> Result<Option<List<Interval>>, NoMemory>
    requires { IsCondOf (C.meaning collation.now).charset cond.now }
    ensures { IfOk result
        (λ found. found ≡ intervals_of (C.meaning collation.now) prefix cond.now) }
{
    match cond {
        Cond::Eq(cell) => equal_to_one(alloc, collation, prefix, cell),
        Cond::AtMost(cell) => at_most(alloc, collation, prefix, cell),
        Cond::AtLeast(cell) => at_least(alloc, collation, prefix, cell),
        Cond::Between(low, high) => between(alloc, collation, prefix, low, high),
        Cond::In(cells) => equal_to_any(alloc, collation, prefix, cells.as_slice()),
        Cond::Like { pattern, escape } => like(alloc, collation, prefix, pattern, *escape),
    }
}

/// The list of one interval.
fn alone(alloc: Global, interval: Interval) -> Result<Option<List<Interval>>, NoMemory>
    ensures { IfOk result (λ found. found ≡ Some (interval ∷ [])) }
{
    let mut out = List::new(alloc);
    out.push(interval)?;
    Ok(Some(out))
}

/// The interval up to a constant.
fn at_most<C: Collation>(
    alloc: Global,
    collation: &C,
    prefix: Option<u32>,
    cell: &Cell,
) -> Result<Option<List<Interval>>, NoMemory>
    requires { IsCellOf (C.meaning collation.now).charset cell.now }
    ensures { IfOk result
        (λ found. found ≡ Some (at_most (C.meaning collation.now) prefix cell.now)) }
{
    let Cell::Str(text) = cell else {
        return Ok(Some(List::new(alloc)));
    };
    let high = upper_end(alloc, collation, prefix, text.as_slice())?;
    alone(
        alloc,
        Interval {
            lo: None,
            hi: Some(high),
        },
    )
}

/// The interval from a constant on.
fn at_least<C: Collation>(
    alloc: Global,
    collation: &C,
    prefix: Option<u32>,
    cell: &Cell,
) -> Result<Option<List<Interval>>, NoMemory>
    requires { IsCellOf (C.meaning collation.now).charset cell.now }
    ensures { IfOk result
        (λ found. found ≡ Some (at_least (C.meaning collation.now) prefix cell.now)) }
{
    let Cell::Str(text) = cell else {
        return Ok(Some(List::new(alloc)));
    };
    let low = lower_end(alloc, collation, prefix, text.as_slice())?;
    alone(
        alloc,
        Interval {
            lo: Some(low),
            hi: None,
        },
    )
}

/// The interval from one constant to another.
fn between<C: Collation>(
    alloc: Global,
    collation: &C,
    prefix: Option<u32>,
    low: &Cell,
    high: &Cell,
) -> Result<Option<List<Interval>>, NoMemory>
    requires low { IsCellOf (C.meaning collation.now).charset low.now }
    requires high { IsCellOf (C.meaning collation.now).charset high.now }
    ensures { IfOk result
        (λ found. found ≡ Some (between (C.meaning collation.now) prefix low.now high.now)) }
{
    let (Cell::Str(low), Cell::Str(high)) = (low, high) else {
        return Ok(Some(List::new(alloc)));
    };
    let lo = lower_end(alloc, collation, prefix, low.as_slice())?;
    let hi = upper_end(alloc, collation, prefix, high.as_slice())?;
    alone(
        alloc,
        Interval {
            lo: Some(lo),
            hi: Some(hi),
        },
    )
}
