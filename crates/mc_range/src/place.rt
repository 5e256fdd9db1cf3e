ghost use Rattle.mc_order.specs.Order.{list_order};
ghost use Rattle.mc_range.specs.Places.{place_list, wins};
ghost use Rattle.std.specs.Prelude.{◌≡◌, ◌≤◌, ◌++◌, cond, length};

use mc_order::{Collation, Pad, WeightStream, compare_streams, order_laws};
use std::cmp::Ordering;

/// The two ends of an interval.
#[derive(Clone, Copy, Debug)]
pub(crate) enum Side {
    /// The lower end, for which the least list is sought.
    Low,
    /// The upper end, for which the greatest list is sought.
    High,
}

/// A candidate: so many first weights of a list, a tail, and what is behind them at an end.
#[derive(Clone, Copy, Debug)]
pub(crate) struct Place<'a> {
    pub(crate) size: usize,
    pub(crate) tail: &'a [u32],
    pub(crate) behind: &'a [u32],
}

/// Three lists, one behind the other.
#[derive(Drop)]
struct Joined<'a> {
    first: &'a [u32],
    second: &'a [u32],
    third: &'a [u32],
}

impl<'a> WeightStream for Joined<'a> {
    ghost left = { λ joined. joined.first.now ++ (joined.second.now ++ joined.third.now) };

    fn next_weight(&mut self) -> Option<u32> {
        if let Some((weight, more)) = self.first.split_first() {
            self.first = more;
            return Some(*weight);
        }
        if let Some((weight, more)) = self.second.split_first() {
            self.second = more;
            return Some(*weight);
        }
        let (weight, more) = self.third.split_first()?;
        self.third = more;
        Some(*weight)
    }
}

/// Whether a list of this order against the best so far takes its place.
fn wins(side: Side, order: Ordering) -> bool
    ensures { result ≡ wins side order }
{
    match side {
        Side::Low => order == Ordering::Less,
        Side::High => order == Ordering::Greater,
    }
}

/// The order of a candidate and of an earlier one, which has no more of the list in front.
fn later_order(pad: Pad, space: u32, weights: &[u32], later: Place, earlier: Place) -> Ordering
    requires first { earlier.size ≤ later.size }
    requires within { later.size ≤ length weights.now }
    ensures { result ≡ list_order pad space (place_list weights.now later.entry)
        (place_list weights.now earlier.entry) }
{
    order_laws();
    let mut one = Joined {
        first: &weights[earlier.size..later.size],
        second: later.tail,
        third: later.behind,
    };
    let mut other = Joined {
        first: &[],
        second: earlier.tail,
        third: earlier.behind,
    };
    compare_streams(&mut one, &mut other, pad, space)
}

/// The candidate, where its list wins against the best one so far, and else that one.
pub(crate) fn better<'a, C: Collation>(
    collation: &C,
    side: Side,
    weights: &[u32],
    best: Place<'a>,
    next: Place<'a>,
) -> Place<'a>
    requires first { best.size ≤ next.size }
    requires within { next.size ≤ length weights.now }
    ensures size { result.size ≤ next.entry.size }
    ensures list { let m = C.meaning collation.now in
        let list = place_list weights.now in
        let order = list_order m.pad m.space (list next.entry) (list best.entry) in
        list result ≡ cond (wins side order) (list next.entry) (list best.entry) }
{
    let order = later_order(collation.pad(), collation.space(), weights, next, best);
    if wins(side, order) {
        return next;
    }
    best
}
