//! The smallest collation that has everything: a contraction, a character without weights, one of
//! two weights, and two weight levels. What it means is `specs/Toy.antt`.
ghost use Rattle.mc_order.specs.Meaning.{first_chars};
ghost use Rattle.mc_order.specs.Toy.{toy_meaning};
ghost use Rattle.mc_order.specs.ToyLaws.{toy_lawful};
ghost use Rattle.std.specs.Prelude.{◌≡◌};

use crate::toy_weights::{ToyWeights, folded};
use crate::{Collation, Pad, compare_streams, put_weights};
use mc_base::{NoMemory, Weights};
use mc_charset::{Charset, chars_law};
use std::cmp::Ordering;

/// The collation.
#[derive(Drop)]
pub(crate) struct Toy;

/// The first bytes of a text, or all where no number is given.
fn first_bytes(text: &[u8], first: Option<u32>) -> &[u8]
    ensures { result.now ≡ first_chars first text.now }
{
    match first {
        Some(count) => &text[..text.len().min(count as usize)],
        None => text,
    }
}

impl Collation for Toy {
    ghost meaning = { λ _. toy_meaning };

    fn charset(&self) -> Charset {
        Charset::Binary
    }

    fn pad(&self) -> Pad {
        Pad::NoPad
    }

    fn space(&self) -> u32 {
        0
    }

    fn levels(&self) -> u8 {
        2
    }

    fn weight_width(&self) -> u8 {
        3
    }

    fn added(&self) -> u32 {
        0
    }

    fn compare(&self, a: &[u8], b: &[u8]) -> Ordering {
        chars_law();
        compare_streams(
            &mut ToyWeights::new(a),
            &mut ToyWeights::new(b),
            Pad::NoPad,
            0,
        )
    }

    fn same_char(&self, c: u32, d: u32) -> bool {
        folded(c) == folded(d)
    }

    fn safe(&self, c: u32) -> bool {
        folded(c) != 0x44
    }

    fn floor(&self, _k: u32) -> u32 {
        0
    }

    fn tail_count(&self) -> u32 {
        2
    }

    fn tail(&self, i: u32) -> &[u32] {
        match i {
            0 => &[0x45],
            1 => &[0x45, 0x5B],
            _ => &[],
        }
    }

    fn put_list(&self, text: &[u8], first: Option<u32>, out: &mut Weights) -> Result<(), NoMemory> {
        chars_law();
        put_weights(&mut ToyWeights::new(first_bytes(text, first)), out)
    }

    ghost lawful = { λ _. toy_lawful };
}
