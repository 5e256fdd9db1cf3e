ghost use Rattle.mc_coerce.specs.Aggregate.{same_set_and_level, shares};
ghost use Rattle.mc_coerce.specs.Demand.{contender, has_less, meets};
ghost use Rattle.std.specs.Prelude.{◌≡◌};

use crate::levels::EXPLICIT;
use crate::operand::Operand;
use crate::pair::beats;
use mc_charset::same_set;

/// What an operand has to do to each of the operands so that it decides for all of them.
#[derive(Clone, Copy)]
pub(crate) enum Demand {
    /// To beat it.
    Beat,
    /// To share with it.
    Share,
}

/// Whether the first operand meets the demand to the second.
pub(crate) fn meets(demand: Demand, a: &Operand, b: &Operand) -> bool
    ensures { result ≡ meets demand a.now b.now }
{
    match demand {
        Demand::Beat => beats(a, b),
        Demand::Share => shares(a, b),
    }
}

/// The one of two operands that may still decide; of two that are alike in the set, the level and
/// what the demand asks for, the one of the greater repertoire, which beats more.
pub(crate) fn contender(demand: Demand, candidate: Option<Operand>, b: &Operand) -> Operand
    ensures { result ≡ contender demand candidate b.now }
{
    match candidate {
        None => *b,
        Some(a) => {
            if meets(demand, &a, b) && !(meets(demand, b, &a) && has_less(&a, b)) {
                a
            } else {
                *b
            }
        }
    }
}

/// Whether the first operand isn't explicit, and beats the second or has its set and level.
fn shares(a: &Operand, b: &Operand) -> bool
    ensures { result ≡ shares a.now b.now }
{
    a.level > EXPLICIT && (beats(a, b) || has_same_set_and_level(a, b))
}

fn has_same_set_and_level(a: &Operand, b: &Operand) -> bool
    ensures { result ≡ same_set_and_level a.now b.now }
{
    same_set(a.charset, b.charset) && a.level == b.level
}

/// Whether the repertoire is less than the other one's.
fn has_less(a: &Operand, b: &Operand) -> bool
    ensures { result ≡ has_less a.now b.now }
{
    !b.repertoire.is_at_most(a.repertoire)
}
