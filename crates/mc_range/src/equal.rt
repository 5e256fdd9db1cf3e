ghost use Rattle.mc_charset.specs.Chars.{chars, IsWellFormed};
ghost use Rattle.mc_range.specs.Candidates.{candidates, with_tails};
ghost use Rattle.mc_range.specs.Condition.{IsCellOf};
ghost use Rattle.mc_range.specs.Intervals.{around, passing, equal_front, equal_chars, equal_cell};
ghost use Rattle.mc_range.specs.Intervals.{most_intervals, within_most};
ghost use Rattle.mc_range.specs.Appends.{Appends};
ghost use Rattle.std.specs.List.{All, flat_map};
ghost use Rattle.std.specs.Prelude.{◌≡◌, ◌≤◌, ◌+◌, ◌++◌, ◌∷◌, [], None, IfOk, length, map, min};
ghost use Rattle.std.specs.Prelude.{nat_le};

use crate::ends::{behind_high, behind_low, may_pass};
use crate::lists::{SEPARATOR, first_list, joined, whole_list};
use crate::{Cell, Interval};
use mc_base::{List, NoMemory};
use mc_key::TOP;
use mc_order::Collation;
use std::alloc::Global;

/// The most intervals that are made: this engine's own limit.
const MOST_INTERVALS: usize = 4096;

/// Whether intervals were appended.
#[derive(Clone, Copy, Debug)]
pub(crate) enum Put {
    /// All of them.
    All,
    /// They would have been too many.
    TooMany,
}

/// The interval of the index lists whose first list is this front and this tail.
fn around<C: Collation>(
    alloc: Global,
    collation: &C,
    front: &[u32],
    tail: &[u32],
) -> Result<Interval, NoMemory>
    ensures { IfOk result
        (λ interval. interval ≡ around (C.meaning collation.now) (front.now ++ tail.now)) }
{
    let low = joined(alloc, front, tail, behind_low(collation))?;
    let high = joined(alloc, front, tail, behind_high(collation))?;
    Ok(Interval {
        lo: Some(low),
        hi: Some(high),
    })
}

/// Appends the interval of a front and a tail.
fn put_around<C: Collation>(
    alloc: Global,
    collation: &C,
    front: &[u32],
    tail: &[u32],
    out: &mut List<Interval>,
) -> Result<(), NoMemory>
    ensures { let m = C.meaning collation.now in
        IfOk result (λ _. out.new ≡ out.old ++ around m (front.now ++ tail.now) ∷ []) }
{
    out.push(around(alloc, collation, front, tail)?)
}

/// Appends the intervals of a front with each tail.
fn put_tails<C: Collation>(
    alloc: Global,
    collation: &C,
    front: &[u32],
    out: &mut List<Interval>,
) -> Result<(), NoMemory>
    ensures { let m = C.meaning collation.now in
        let lists = map (λ tail. front.now ++ tail) m.tails in
        IfOk result (λ _. out.new ≡ out.old ++ map (around m) lists) }
{
    for i in 0..collation.tail_count() {
        put_around(alloc, collation, front, collation.tail(i), out)?;
    }
    Ok(())
}

/// Appends the intervals of a front, alone and with each tail.
fn put_front<C: Collation>(
    alloc: Global,
    collation: &C,
    front: &[u32],
    out: &mut List<Interval>,
) -> Result<(), NoMemory>
    ensures { let m = C.meaning collation.now in
        IfOk result (λ _. out.new ≡ out.old ++ map (around m) (with_tails m.tails front.now)) }
{
    put_around(alloc, collation, front, &[], out)?;
    put_tails(alloc, collation, front, out)
}

/// Appends the intervals of the candidates, from a front of this size on.
fn put_candidates<C: Collation>(
    alloc: Global,
    collation: &C,
    weights: &[u32],
    shortest: usize,
    out: &mut List<Interval>,
) -> Result<(), NoMemory>
    requires { shortest ≤ length weights.now }
    ensures { let m = C.meaning collation.now in
        IfOk result (λ _. out.new ≡ out.old
        ++ map (around m) (candidates shortest m.tails weights.now)) }
{
    for size in shortest..weights.len() + 1 {
        put_front(alloc, collation, &weights[..size], out)?;
    }
    Ok(())
}

/// Appends the interval of the lists that go on where this one has ended, if there may be some.
fn put_passing<C: Collation>(
    alloc: Global,
    collation: &C,
    weights: &[u32],
    out: &mut List<Interval>,
) -> Result<(), NoMemory>
    ensures { IfOk result
        (λ _. out.new ≡ out.old ++ passing (C.meaning collation.now) weights.now) }
{
    if !may_pass(collation) {
        return Ok(());
    }
    let low = joined(alloc, weights, &[SEPARATOR], &[])?;
    let high = joined(alloc, weights, &[TOP], &[])?;
    out.push(Interval {
        lo: Some(low),
        hi: Some(high),
    })
}

/// Whether so many intervals and those of the candidates are no more than the most.
fn fits<C: Collation>(collation: &C, made: usize, weights: &[u32], shortest: usize, k: u32) -> bool
    requires shortest { shortest ≡ min ((C.meaning collation.now).floor k) (length weights.now) }
    ensures { result ≡ nat_le
        (made + length (equal_front (C.meaning collation.now) k weights.now)) most_intervals }
{
    let fronts = weights.len() - shortest + 1;
    let with_tails = collation.tail_count() as usize + 1;
    let passing = usize::from(may_pass(collation));
    let more = fronts.saturating_mul(with_tails).saturating_add(passing);
    made.saturating_add(more) <= MOST_INTERVALS
}

/// Appends the intervals of texts equal to one of this first list, in an index of the first k
/// characters, unless they would be too many.
fn put_equal_front<C: Collation>(
    alloc: Global,
    collation: &C,
    k: u32,
    weights: &[u32],
    out: &mut List<Interval>,
) -> Result<Put, NoMemory>
    ensures { IfOk result (λ put. Appends put out.old out.new
        (equal_front (C.meaning collation.now) k weights.now)) }
{
    let shortest = weights.len().min(collation.floor(k) as usize);
    if !fits(collation, out.len(), weights, shortest, k) {
        return Ok(Put::TooMany);
    }
    put_candidates(alloc, collation, weights, shortest, out)?;
    put_passing(alloc, collation, weights, out)?;
    Ok(Put::All)
}

/// Appends the interval of texts equal to this one, in an index of whole texts, unless it would be
/// too many.
fn put_whole<C: Collation>(
    alloc: Global,
    collation: &C,
    text: &[u8],
    out: &mut List<Interval>,
) -> Result<Put, NoMemory>
    requires { IsWellFormed (C.meaning collation.now).charset text.now }
    ensures { let m = C.meaning collation.now in
        IfOk result (λ put. Appends put out.old out.new
        (equal_chars m None (chars m.charset text.now))) }
{
    if out.len() >= MOST_INTERVALS {
        return Ok(Put::TooMany);
    }
    let low = whole_list(alloc, collation, text)?;
    let high = joined(alloc, low.as_slice(), &[], &[])?;
    out.push(Interval {
        lo: Some(low),
        hi: Some(high),
    })?;
    Ok(Put::All)
}

/// Appends the intervals of texts equal to a constant, unless they would be too many.
fn put_equal<C: Collation>(
    alloc: Global,
    collation: &C,
    prefix: Option<u32>,
    cell: &Cell,
    out: &mut List<Interval>,
) -> Result<Put, NoMemory>
    requires text { IsCellOf (C.meaning collation.now).charset cell.now }
    requires few { length out.old ≤ most_intervals }
    ensures { IfOk result (λ put. Appends put out.old out.new
        (equal_cell (C.meaning collation.now) prefix cell.now)) }
{
    let Cell::Str(text) = cell else {
        return Ok(Put::All);
    };
    let Some(k) = prefix else {
        return put_whole(alloc, collation, text.as_slice(), out);
    };
    let weights = first_list(alloc, collation, text.as_slice())?;
    put_equal_front(alloc, collation, k, weights.as_slice(), out)
}

/// Appends the intervals of texts equal to one of the constants, unless they would be too many.
fn put_equal_any<C: Collation>(
    alloc: Global,
    collation: &C,
    prefix: Option<u32>,
    cells: &[Cell],
    out: &mut List<Interval>,
) -> Result<Put, NoMemory>
    requires texts { All (IsCellOf (C.meaning collation.now).charset) cells.now }
    requires few { length out.old ≤ most_intervals }
    ensures { IfOk result (λ put. Appends put out.old out.new
        (flat_map (equal_cell (C.meaning collation.now) prefix) cells.now)) }
{
    for cell in cells {
        match put_equal(alloc, collation, prefix, cell, out)? {
            Put::All => {}
            Put::TooMany => return Ok(Put::TooMany),
        }
    }
    Ok(Put::All)
}

/// The intervals of texts equal to a constant, if they are not too many.
pub(crate) fn equal_to_one<C: Collation>(
    alloc: Global,
    collation: &C,
    prefix: Option<u32>,
    cell: &Cell,
) -> Result<Option<List<Interval>>, NoMemory>
    requires { IsCellOf (C.meaning collation.now).charset cell.now }
    ensures { IfOk result (λ found. found
        ≡ within_most (equal_cell (C.meaning collation.now) prefix cell.now)) }
{
    let mut out = List::new(alloc);
    match put_equal(alloc, collation, prefix, cell, &mut out)? {
        Put::All => Ok(Some(out)),
        Put::TooMany => Ok(None),
    }
}

/// The intervals of texts equal to one of the constants, if they are not too many.
pub(crate) fn equal_to_any<C: Collation>(
    alloc: Global,
    collation: &C,
    prefix: Option<u32>,
    cells: &[Cell],
) -> Result<Option<List<Interval>>, NoMemory>
    requires { All (IsCellOf (C.meaning collation.now).charset) cells.now }
    ensures { IfOk result (λ found. found
        ≡ within_most (flat_map (equal_cell (C.meaning collation.now) prefix) cells.now)) }
{
    let mut out = List::new(alloc);
    match put_equal_any(alloc, collation, prefix, cells, &mut out)? {
        Put::All => Ok(Some(out)),
        Put::TooMany => Ok(None),
    }
}
