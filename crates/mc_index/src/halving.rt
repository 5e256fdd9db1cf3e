ghost use Rattle.mc_index.specs.Digits.{binary_digits};
ghost use Rattle.mc_index.specs.Held.{AreKeyed, IsKeyed, holds_before};
ghost use Rattle.std.specs.List.Sorted.{IsPartitionedBy};
ghost use Rattle.std.specs.Prelude.{◌≡◌, ◌≤◌, ◌+◌, count_by, length};

use crate::Side;
use crate::entry::Entry;
use mc_base::Steps;
use mc_key::{Bound, compare_bound};

/// Whether the key of an entry is below a bound, or (After) not above it. It ticks once.
fn is_before<W>(entry: &Entry, bound: &Bound, side: Side, work: &mut Steps<W>) -> bool
    requires { IsKeyed bound.now.pad bound.now.space entry.now }
    ensures told { result ≡ holds_before bound.now side entry.now }
    ensures later { work.old ≤ work.new }
    ensures work { work.new ≤ work.old + 1 }
{
    let _before = work.count();
    let order = compare_bound(&entry.key, bound, work);
    match side {
        Side::Before => order.is_lt(),
        Side::After => order.is_le(),
    }
}

/// How many of sorted entries stand before a side of a bound, found by halving.
pub(crate) fn passed_len<W>(
    entries: &[Entry],
    bound: &Bound,
    side: Side,
    work: &mut Steps<W>,
) -> usize
    requires keyed { AreKeyed bound.now.pad bound.now.space entries.now }
    requires sorted { IsPartitionedBy (holds_before bound.now side) entries.now }
    ensures count { result ≡ count_by (holds_before bound.now side) entries.now }
    ensures later { work.old ≤ work.new }
    ensures work { work.new ≤ work.old + binary_digits (length entries.now) }
{
    let mut from = 0;
    let mut size = entries.len();
    while size > 0 {
        let half = size / 2;
        if is_before(&entries[from + half], bound, side, work) {
            from += half + 1;
            size -= half + 1;
        } else {
            size = half;
        }
    }
    from
}
