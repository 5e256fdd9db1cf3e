ghost use Rattle.mc_key.specs.Keys.{AreBoundNumbers};
ghost use Rattle.mc_order.specs.Laws.{greatest_weight};
ghost use Rattle.mc_order.specs.Order.{list_order};
ghost use Rattle.std.specs.Prelude.{◌≡◌, ◌≤◌, ◌+◌, ◌-◌, ◌^◌, IfOk, min};

use crate::Key;
use mc_base::{NoMemory, Steps, Weights};
use mc_order::{Pad, compare_lists};
use std::alloc::Global;
use std::cmp::Ordering;
use std::marker::Model;

/// The number of a bound that is above every weight.
pub const TOP: u32 = 4_294_967_295;

/// An end of a range of keys. Contracts see its numbers, its padding and its space.
#[derive(Debug, Drop)]
pub struct Bound {
    numbers: Weights,
    pad: Pad,
    space: u32,
    ghost are_numbers: { AreBoundNumbers numbers },
    ghost space_bounded: { space ≤ greatest_weight },
}

impl Model for Bound {
    ghost use Rattle.mc_key.specs.Keys.{SeenBound};

    ghost Value = { SeenBound };

    ghost view = { λ bound. record {
      numbers = bound.numbers;
      pad = bound.pad;
      space = bound.space;
      are_numbers = bound.are_numbers;
      space_bounded = bound.space_bounded;
    } };
}

/// The bound of these numbers: each is `TOP`, a weight, or 0, which is below every weight.
pub fn make_bound(alloc: Global, list: &Weights, pad: Pad, space: u32) -> Result<Bound, NoMemory>
    requires numbers { AreBoundNumbers list.now }
    requires space { space ≤ greatest_weight }
    ensures numbers { IfOk result (λ bound. bound.numbers ≡ list.now) }
    ensures pad { IfOk result (λ bound. bound.pad ≡ pad) }
    ensures space { IfOk result (λ bound. bound.space ≡ space) }
{
    Ok(Bound {
        numbers: Weights::from_slice(alloc, list.as_slice())?,
        pad,
        space,
    })
}

/// The order of a key and of a bound of its padding and space: that of the key's weights and the
/// bound's numbers. It ticks once, and takes no memory.
pub fn compare_bound<W>(a: &Key, b: &Bound, work: &mut Steps<W>) -> Ordering
    requires same_pad { a.now.pad ≡ b.now.pad }
    requires same_space { a.now.space ≡ b.now.space }
    ensures order { result ≡ list_order a.now.pad a.now.space a.now.weights b.now.numbers }
    ensures tick { work.new ≡ min (work.old + 1) (2 ^ 64 - 1) }
{
    work.tick();
    compare_lists(a.as_slice(), b.numbers.as_slice(), b.pad, b.space)
}
