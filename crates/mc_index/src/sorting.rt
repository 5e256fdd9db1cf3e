ghost use Rattle.mc_index.specs.Entries.{entry_order};
ghost use Rattle.mc_index.specs.Held.{AreKeyed, fronts_first, seen};
ghost use Rattle.std.specs.List.Sorted.{IsPermutation, IsSorted};
ghost use Rattle.std.specs.Ordering.{on};
ghost use Rattle.std.specs.Prelude.{◌≡◌};

use crate::entry::Entry;
use mc_key::front_law;
use mc_order::{Pad, compare_lists, order_laws};
use std::cmp::Ordering;

/// The order of two entries: that of their keys, and of their rows where those are equal.
fn entry_order(pad: Pad, space: u32, one: &Entry, other: &Entry) -> Ordering
    ensures { result ≡ entry_order pad space (seen one.now) (seen other.now) }
{
    match compare_lists(one.key.as_slice(), other.key.as_slice(), pad, space) {
        Ordering::Equal => one.row.cmp(&other.row),
        differs => differs,
    }
}

/// The order of two entries, by their fronts where those differ: that is all one where both have
/// keys of this padding and space.
fn fronts_first(pad: Pad, space: u32, one: &Entry, other: &Entry) -> Ordering
    ensures { result ≡ fronts_first pad space one.now other.now }
{
    match one.front.cmp(&other.front) {
        Ordering::Equal => entry_order(pad, space, one, other),
        differs => differs,
    }
}

/// Sorts entries of one padding and space.
pub(crate) fn sort_entries(pad: Pad, space: u32, entries: &mut Vec<Entry>)
    requires keyed { AreKeyed pad space entries.old.items }
    ensures permutation { IsPermutation entries.old.items entries.new.items }
    ensures sorted { IsSorted (on seen (entry_order pad space)) entries.new.items }
{
    order_laws();
    front_law();
    entries.sort_unstable_by(|one, other| fronts_first(pad, space, one, other));
}
