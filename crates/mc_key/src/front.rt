ghost use Rattle.mc_key.specs.Fronts.{FrontsDecide, filler, first_digits, front_of};
ghost use Rattle.mc_order.specs.Order.{list_order};
ghost use Rattle.std.specs.Prelude.{◌≡◌, drop, slice_index_or};

use mc_order::{Pad, compare_lists, order_laws};
use std::cmp::Ordering;

/// The greatest digit of a front.
const GREATEST_DIGIT: u32 = 65_535;

/// The front of a list of weights: a number of its first eight, which decides the order of two
/// lists where their fronts differ. It takes no memory.
pub fn front_of(list: &[u32], pad: Pad, space: u32) -> u128
    ensures { result ≡ front_of pad space list.now }
{
    let filler = filler(pad, space);
    let mut front = 0;
    let mut rest = list;
    let mut left: u32 = 8;
    while left > 0 {
        left -= 1;
        let (weight, behind) = first_of(rest, filler);
        if weight >= GREATEST_DIGIT {
            return front + (u128::from(GREATEST_DIGIT) << (16 * left));
        }
        front += u128::from(weight) << (16 * left);
        rest = behind;
    }
    front
}

/// What a front has behind a list's end.
fn filler(pad: Pad, space: u32) -> u32
    ensures { result ≡ filler pad space }
{
    match pad {
        Pad::PadSpace => space,
        Pad::NoPad => 0,
    }
}

/// The first weight of a list, or the filler where there is none, and the weights behind it.
#[inline(always)]
fn first_of(list: &[u32], filler: u32) -> (u32, &[u32])
    ensures first { result.0 ≡ slice_index_or list.now 0 filler }
    ensures behind { result.1.now ≡ drop 1 list.now }
{
    match list {
        [first, behind @ ..] => (*first, behind),
        [] => (filler, list),
    }
}

/// The order of two lists of weights whose fronts are known: they decide where they differ, so that
/// the lists are seldom looked at. It takes no memory.
pub fn compare_with_fronts(
    front: u128,
    list: &[u32],
    other_front: u128,
    other: &[u32],
    pad: Pad,
    space: u32,
) -> Ordering
    requires front { front ≡ front_of pad space list.now }
    requires other_front { other_front ≡ front_of pad space other.now }
    ensures { result ≡ list_order pad space list.now other.now }
{
    front_law();
    match front.cmp(&other_front) {
        Ordering::Equal => compare_lists(list, other, pad, space),
        differs => differs,
    }
}

/// Where two fronts differ they decide the order of the lists.
pub fn front_law()
    ensures { FrontsDecide }
{
    order_laws();
}
