ghost use Rattle.mc_order.specs.Order.{order_to_end, list_order};
ghost use Rattle.std.specs.Prelude.{◌≡◌, ℕ, List, [], ◌∷◌, ◌++◌, take, MatchOption, OnOk, OnErr};

use crate::Pad;
use mc_base::{NoMemory, Weights};
use std::cmp::Ordering;

/// The weights of a text, one after the other, without a list of them.
pub trait WeightStream {
    ghost left: { Self → List ℕ };

    /// The next weight; None at the end, and from then on.
    fn next_weight(&mut self) -> Option<u32>
        ensures { MatchOption result ((left self.old ≡ []) × (left self.new ≡ []))
            (λ weight. left self.old ≡ weight ∷ left self.new) };
}

/// The order of the weights that two streams still give, up to the first difference.
#[tactic(auto, using(crate::proofs::Steps::steps))]
pub fn compare_streams<S: WeightStream>(a: &mut S, b: &mut S, pad: Pad, space: u32) -> Ordering
    ensures { result ≡ list_order pad space (S.left a.old) (S.left b.old) }
{
    while let Some(weight) = a.next_weight() {
        match b.next_weight() {
            Some(other) if weight == other => {}
            Some(other) => return weight.cmp(&other),
            None => return order_to_end(weight, a, pad, space),
        }
    }
    match b.next_weight() {
        Some(weight) => order_to_end(weight, b, pad, space).reverse(),
        None => Ordering::Equal,
    }
}

/// The order of a weight with the stream's behind it, and of what stands behind an end.
#[tactic(auto, using(crate::proofs::Steps::steps))]
fn order_to_end<S: WeightStream>(weight: u32, more: &mut S, pad: Pad, space: u32) -> Ordering
    ensures { result ≡ order_to_end pad space (weight ∷ S.left more.old) }
{
    match pad {
        Pad::NoPad => Ordering::Greater,
        Pad::PadSpace if weight == space => order_to_spaces(more, space),
        Pad::PadSpace => weight.cmp(&space),
    }
}

/// The order of the stream's weights and of spaces without end.
#[tactic(auto, using(crate::proofs::Steps::steps))]
fn order_to_spaces<S: WeightStream>(stream: &mut S, space: u32) -> Ordering
    ensures { result ≡ order_to_end Pad.PadSpace space (S.left stream.old) }
{
    while let Some(weight) = stream.next_weight() {
        if weight != space {
            return weight.cmp(&space);
        }
    }
    Ordering::Equal
}

/// Appends the weights that a stream still gives. Without memory `out` stays as it was.
pub fn put_weights<S: WeightStream>(stream: &mut S, out: &mut Weights) -> Result<(), NoMemory>
    ensures ok { OnOk result (out.new ≡ out.old ++ S.left stream.old) }
    ensures err { OnErr result (out.new ≡ out.old) }
{
    let before = out.len();
    while let Some(weight) = stream.next_weight() {
        if let Err(error) = out.push(weight) {
            out.truncate(before);
            return Err(error);
        }
    }
    Ok(())
}

/// Appends the first `count` weights that a stream still gives, or all where there are no more.
/// Without memory `out` stays as it was.
#[tactic(auto, using(crate::proofs::Steps::put_one_of))]
pub fn put_first_weights<S: WeightStream>(
    stream: &mut S,
    count: u32,
    out: &mut Weights,
) -> Result<(), NoMemory>
    ensures ok { OnOk result (out.new ≡ out.old ++ take count (S.left stream.old)) }
    ensures err { OnErr result (out.new ≡ out.old) }
{
    let before = out.len();
    for _ in 0..count {
        let Some(weight) = stream.next_weight() else {
            return Ok(());
        };
        if let Err(error) = out.push(weight) {
            out.truncate(before);
            return Err(error);
        }
    }
    Ok(())
}
