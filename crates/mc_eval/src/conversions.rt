ghost use Rattle.mc_eval.specs.Functions.{converted_to, number_text};
ghost use Rattle.mc_eval.specs.Held.{HoldsKept, TellsHeld};
ghost use Rattle.mc_eval.specs.Outcomes.{GivesKept, IsKept, IsValue, Outcome, Tells, of_one};
ghost use Rattle.mc_eval.specs.Outcomes.Outcome.{gives};
ghost use Rattle.std.specs.Prelude.{IfOk};

use crate::fault::EvalFault;
use crate::held::Held;
use crate::results::{limited, text_or_null};
use mc_base::NoMemory;
use mc_charset::Charset;
use mc_values::{Value, convert_value, int_text};
use std::alloc::Global;

/// The digits of a number as a text of a set.
fn number_text(alloc: Global, set: Charset, value: &Value) -> Result<Value, NoMemory>
    ensures { IfOk result (IsValue (number_text set value.now)) }
{
    match value {
        Value::Int(number) => Ok(limited(set, int_text(alloc, *number, set)?)),
        Value::Null | Value::Str { .. } => Ok(Value::Null),
    }
}

/// A text in another set.
fn converted_to(alloc: Global, set: Charset, value: &Value) -> Result<Value, NoMemory>
    requires { IsKept value.now }
    ensures { IfOk result (IsValue (converted_to set value.now)) }
{
    match value {
        Value::Str { charset, text } => Ok(text_or_null(
            set,
            convert_value(alloc, *charset, set, text.as_slice())?,
        )),
        Value::Null | Value::Int(_) => Ok(Value::Null),
    }
}

/// The digits of what came of an operand, as a text of a set.
pub(crate) fn digits(
    alloc: Global,
    set: Charset,
    operand: Result<Held<'_>, EvalFault>,
) -> Result<Value, EvalFault>
    ensures told { (o : Outcome) → TellsHeld o operand.entry →
        Tells (of_one (λ it. gives (number_text set it)) o) result }
    ensures kept { GivesKept result }
{
    match operand {
        Ok(held) => match number_text(alloc, set, held.get()) {
            Ok(value) => Ok(value),
            Err(NoMemory) => Err(EvalFault::NoMemory),
        },
        Err(fault) => Err(fault),
    }
}

/// What came of an operand, in another set.
pub(crate) fn converted(
    alloc: Global,
    set: Charset,
    operand: Result<Held<'_>, EvalFault>,
) -> Result<Value, EvalFault>
    requires { HoldsKept operand }
    ensures told { (o : Outcome) → TellsHeld o operand.entry →
        Tells (of_one (λ it. gives (converted_to set it)) o) result }
    ensures kept { GivesKept result }
{
    match operand {
        Ok(held) => match converted_to(alloc, set, held.get()) {
            Ok(value) => Ok(value),
            Err(NoMemory) => Err(EvalFault::NoMemory),
        },
        Err(fault) => Err(fault),
    }
}
