ghost use Rattle.mc_eval.specs.Held.{HoldsKept, TellsHeld};
ghost use Rattle.mc_eval.specs.Node.{at_place};
ghost use Rattle.mc_eval.specs.Outcomes.{GivesKept, IsKept, Outcome, Tells, of_one};
ghost use Rattle.mc_eval.specs.Texts.{is_null};
ghost use Rattle.mc_eval.specs.Truths.{known, opposite, one_of, told, truth, turned};
ghost use Rattle.mc_eval.specs.declared.truth.Truth.{Truth as TruthValue};
ghost use Rattle.std.specs.Prelude.{◌≡◌, All, IfOk};

use crate::comparisons::is_null;
use crate::fault::EvalFault;
use crate::held::Held;
use crate::truth::Truth;
use mc_base::NoMemory;
use mc_values::{Row, Value};
use std::alloc::Global;

/// The value at a place of a row; NULL where it has no such place.
pub(crate) fn at_place<'a>(row: &'a Row, place: u32) -> Result<Held<'a>, EvalFault>
    requires { All IsKept row.now }
    ensures told { TellsHeld (at_place row.now place) result }
    ensures kept { HoldsKept result }
{
    match row.as_slice().get(place as usize) {
        Some(value) => Ok(Held::Lent(value)),
        None => Ok(Held::Made(Value::Null)),
    }
}

/// An answer, as that of an operand.
pub(crate) fn made<'a>(answer: Result<Value, EvalFault>) -> Result<Held<'a>, EvalFault>
    requires { GivesKept answer }
    ensures told { (o : Outcome) → Tells o answer → TellsHeld o result }
    ensures kept { HoldsKept result }
{
    match answer {
        Ok(value) => Ok(Held::Made(value)),
        Err(fault) => Err(fault),
    }
}

/// What came of an operand, as a value of its own.
pub(crate) fn owned(alloc: Global, operand: Result<Held<'_>, EvalFault>) -> Result<Value, EvalFault>
    requires { HoldsKept operand }
    ensures told { (o : Outcome) → TellsHeld o operand.entry → Tells o result }
    ensures kept { GivesKept result }
{
    match operand {
        Ok(held) => match held.into_value(alloc) {
            Ok(value) => Ok(value),
            Err(NoMemory) => Err(EvalFault::NoMemory),
        },
        Err(fault) => Err(fault),
    }
}

/// A truth value or its opposite, if memory did not run out, as the answer of an operand.
pub(crate) fn made_truth<'a>(it: Result<Truth, NoMemory>, turn: bool) -> Result<Held<'a>, EvalFault>
    ensures told { (t : TruthValue) → IfOk it (λ is. is ≡ t) →
        TellsHeld (told (turned turn t)) result }
    ensures kept { HoldsKept result }
{
    match it {
        Ok(it) => made(it.turned(turn).told()),
        Err(NoMemory) => Err(EvalFault::NoMemory),
    }
}

/// NOT of what came of an operand.
pub(crate) fn not<'a>(operand: Result<Held<'_>, EvalFault>) -> Result<Held<'a>, EvalFault>
    ensures told { (o : Outcome) → TellsHeld o operand.entry →
        TellsHeld (told (opposite (truth o))) result }
    ensures kept { HoldsKept result }
{
    made_truth(Truth::of_operand(operand), true)
}

/// IS NULL or IS NOT NULL of what came of an operand.
pub(crate) fn null_test<'a>(
    operand: Result<Held<'_>, EvalFault>,
    negated: bool,
) -> Result<Held<'a>, EvalFault>
    ensures told { (o : Outcome) → TellsHeld o operand.entry →
        TellsHeld (of_one (λ it. told (turned negated (known (is_null it)))) o) result }
    ensures kept { HoldsKept result }
{
    match operand {
        Ok(held) => made_truth(Ok(Truth::known(is_null(held.get()))), negated),
        Err(fault) => Err(fault),
    }
}

/// XOR of what came of two operands.
pub(crate) fn xor<'a>(
    one: Result<Held<'_>, EvalFault>,
    other: Result<Held<'_>, EvalFault>,
) -> Result<Held<'a>, EvalFault>
    ensures told { (x y : Outcome) → TellsHeld x one.entry → TellsHeld y other.entry →
        TellsHeld (told (one_of (truth x) (truth y))) result }
    ensures kept { HoldsKept result }
{
    match Truth::of_operand(one) {
        Ok(one) => match Truth::of_operand(other) {
            Ok(other) => made_truth(Ok(one.one_of(other)), false),
            Err(NoMemory) => Err(EvalFault::NoMemory),
        },
        Err(NoMemory) => Err(EvalFault::NoMemory),
    }
}
