ghost use Rattle.mc_charset.specs.Chars.{chars, IsWellFormed};
ghost use Rattle.mc_range.specs.Candidates.{candidates, with_tails, may_pass, passing_ends, ends};
ghost use Rattle.mc_range.specs.Candidates.{extreme, lower_end, upper_end, behind_low, behind_high};
ghost use Rattle.mc_range.specs.Places.{place_list, best_on, wins};
ghost use Rattle.std.specs.Prelude.{◌≡◌, ◌≤◌, ◌++◌, [], IfOk, length, map, take};

use crate::lists::{SEPARATOR, first_list, joined, whole_list};
use crate::place::{Place, Side, better};
use mc_base::{NoMemory, Weights};
use mc_key::TOP;
use mc_order::{Collation, Pad};
use std::alloc::Global;

/// What is behind a candidate at the lower end of its interval.
pub(crate) fn behind_low<C: Collation>(collation: &C) -> &'static [u32]
    ensures { result.now ≡ behind_low (C.meaning collation.now) }
{
    match collation.levels() {
        1 => &[],
        _ => &[SEPARATOR],
    }
}

/// What is behind a candidate at the upper end of its interval.
pub(crate) fn behind_high<C: Collation>(collation: &C) -> &'static [u32]
    ensures { result.now ≡ behind_high (C.meaning collation.now) }
{
    match collation.levels() {
        1 => &[],
        _ => &[SEPARATOR, TOP],
    }
}

/// Whether the first characters may go on with spaces and a tail where the constant has ended.
pub(crate) fn may_pass<C: Collation>(collation: &C) -> bool
    ensures { result ≡ may_pass (C.meaning collation.now) }
{
    match collation.pad() {
        Pad::PadSpace => collation.tail_count() > 0,
        Pad::NoPad => false,
    }
}

/// The best of one and of a front with each tail.
fn best_of_tails<'a, C: Collation>(
    collation: &'a C,
    side: Side,
    weights: &[u32],
    start: Place<'a>,
    front: Place<'a>,
) -> Place<'a>
    requires first { start.size ≤ front.size }
    requires within { front.size ≤ length weights.now }
    ensures size { result.size ≤ front.entry.size }
    ensures list { let m = C.meaning collation.now in
        let lists = map (λ tail. take front.entry.size weights.now ++ tail) m.tails in
        place_list weights.now result ≡ best_on m side (place_list weights.now start.entry)
        (map (λ list. list ++ front.entry.behind.now) lists) }
{
    let mut best = start;
    for i in 0..collation.tail_count() {
        let next = Place {
            size: front.size,
            tail: collation.tail(i),
            behind: front.behind,
        };
        best = better(collation, side, weights, best, next);
    }
    best
}

/// The best of one and of a front, alone and with each tail.
fn best_of_front<'a, C: Collation>(
    collation: &'a C,
    side: Side,
    weights: &[u32],
    start: Place<'a>,
    front: Place<'a>,
) -> Place<'a>
    requires first { start.size ≤ front.size }
    requires within { front.size ≤ length weights.now }
    requires alone { front.tail.now ≡ [] }
    ensures size { result.size ≤ front.entry.size }
    ensures list { let m = C.meaning collation.now in
        let fronts = with_tails m.tails (take front.entry.size weights.now) in
        place_list weights.now result ≡ best_on m side (place_list weights.now start.entry)
        (map (λ list. list ++ front.entry.behind.now) fronts) }
{
    let best = better(collation, side, weights, start, front);
    best_of_tails(collation, side, weights, best, front)
}

/// The best of one and of the ends of what goes on where the list has ended.
fn best_of_passing<'a, C: Collation>(
    collation: &C,
    side: Side,
    weights: &[u32],
    start: Place<'a>,
) -> Place<'a>
    requires { start.size ≤ length weights.now }
    ensures size { result.size ≤ length weights.now }
    ensures list { let m = C.meaning collation.now in
        place_list weights.now result ≡ best_on m side (place_list weights.now start.entry)
        (passing_ends m weights.now) }
{
    if !may_pass(collation) {
        return start;
    }
    let low = Place {
        size: weights.len(),
        tail: &[SEPARATOR],
        behind: &[],
    };
    let high = Place {
        size: weights.len(),
        tail: &[TOP],
        behind: &[],
    };
    let best = better(collation, side, weights, start, low);
    better(collation, side, weights, best, high)
}

/// The best of the candidates, from the shortest on.
fn best_of_candidates<'a, C: Collation>(
    collation: &'a C,
    side: Side,
    weights: &[u32],
    shortest: Place<'a>,
) -> Place<'a>
    requires within { shortest.size ≤ length weights.now }
    requires alone { shortest.tail.now ≡ [] }
    ensures size { result.size ≤ length weights.now }
    ensures list { let m = C.meaning collation.now in
        place_list weights.now result ≡ best_on m side (place_list weights.now shortest.entry)
        (map (λ list. list ++ shortest.entry.behind.now)
        (candidates shortest.entry.size m.tails weights.now)) }
{
    let mut best = shortest;
    for size in shortest.size..weights.len() + 1 {
        let front = Place { size, ..shortest };
        best = best_of_front(collation, side, weights, best, front);
    }
    best
}

/// The end of an index of the first k characters, for a constant of this first list.
fn front_end<C: Collation>(
    alloc: Global,
    collation: &C,
    side: Side,
    k: u32,
    weights: &[u32],
    behind: &[u32],
) -> Result<Weights, NoMemory>
    ensures { let m = C.meaning collation.now in
        IfOk result (λ end. end ≡ extreme (wins side) m.pad m.space
        (ends m k weights.now behind.now)) }
{
    let shortest = Place {
        size: weights.len().min(collation.floor(k) as usize),
        tail: &[],
        behind,
    };
    let best = best_of_candidates(collation, side, weights, shortest);
    let best = best_of_passing(collation, side, weights, best);
    joined(alloc, &weights[..best.size], best.tail, best.behind)
}

/// Where the index lists begin of texts that are not below this one.
pub(crate) fn lower_end<C: Collation>(
    alloc: Global,
    collation: &C,
    prefix: Option<u32>,
    text: &[u8],
) -> Result<Weights, NoMemory>
    requires { IsWellFormed (C.meaning collation.now).charset text.now }
    ensures { let m = C.meaning collation.now in
        IfOk result (λ end. end ≡ lower_end m prefix (chars m.charset text.now)) }
{
    let Some(k) = prefix else {
        return whole_list(alloc, collation, text);
    };
    let weights = first_list(alloc, collation, text)?;
    let behind = behind_low(collation);
    front_end(alloc, collation, Side::Low, k, weights.as_slice(), behind)
}

/// Where the index lists end of texts that are not above this one.
pub(crate) fn upper_end<C: Collation>(
    alloc: Global,
    collation: &C,
    prefix: Option<u32>,
    text: &[u8],
) -> Result<Weights, NoMemory>
    requires { IsWellFormed (C.meaning collation.now).charset text.now }
    ensures { let m = C.meaning collation.now in
        IfOk result (λ end. end ≡ upper_end m prefix (chars m.charset text.now)) }
{
    let Some(k) = prefix else {
        return whole_list(alloc, collation, text);
    };
    let weights = first_list(alloc, collation, text)?;
    let behind = behind_high(collation);
    front_end(alloc, collation, Side::High, k, weights.as_slice(), behind)
}
