ghost use Rattle.mc_eval.specs.Arithmetic.{arithmetic, negative, on_numbers, ranged, remainder};
ghost use Rattle.mc_ast.specs.declared.operators.ArithOp.TheVariants.{Div};
ghost use Rattle.mc_eval.specs.Held.{TellsHeld};
ghost use Rattle.mc_eval.specs.Outcomes.{GivesKept, IsValue, Outcome, Tells, of_one, of_two};
ghost use Rattle.std.specs.Int.{CanDivide, IsNonZero, w64};
ghost use Rattle.std.specs.Option.{SomeIff};
ghost use Rattle.std.specs.Prelude.{◌≡◌, FitsSigned, int_div, ℤ};

use crate::fault::EvalFault;
use crate::held::Held;
use mc_ast::ArithOp;
use mc_values::Value;

/// A number that fits 64 bits as a value, else a fault.
#[tactic(auto, using(crate::proofs::Ranges::fits, crate::proofs::Ranges::misfits))]
fn ranged(number: Option<i64>) -> Result<Value, EvalFault>
    ensures told { (z : ℤ) → SomeIff number (FitsSigned w64 z) z → Tells (ranged z) result }
    ensures kept { GivesKept result }
{
    match number {
        Some(number) => Ok(Value::Int(number)),
        None => Err(EvalFault::OutOfRange),
    }
}

/// The remainder, with the sign of `x`; NULL by 0.
pub(crate) fn remainder(x: i64, y: i64) -> Value
    ensures { IsValue (remainder x y) result }
{
    if y == 0 {
        Value::Null
    } else {
        Value::Int(x.wrapping_rem(y))
    }
}

/// A quotient by another number than 0 that fits 64 bits as a value, else a fault.
#[tactic(auto, using(crate::proofs::Ranges::quotients))]
fn ranged_quotient(number: Option<i64>) -> Result<Value, EvalFault>
    ensures told { (x y : ℤ) → IsNonZero w64 y → SomeIff number (CanDivide w64 x y) (int_div x y)
        → Tells (ranged (int_div x y)) result }
    ensures kept { GivesKept result }
{
    match number {
        Some(number) => Ok(Value::Int(number)),
        None => Err(EvalFault::OutOfRange),
    }
}

/// The quotient, truncated towards zero; NULL by 0.
fn quotient(x: i64, y: i64) -> Result<Value, EvalFault>
    ensures told { Tells (arithmetic Div x y) result }
    ensures kept { GivesKept result }
{
    if y == 0 {
        Ok(Value::Null)
    } else {
        ranged_quotient(x.checked_div(y))
    }
}

/// An operation on two numbers.
fn arithmetic(op: ArithOp, x: i64, y: i64) -> Result<Value, EvalFault>
    ensures told { Tells (arithmetic op x y) result }
    ensures kept { GivesKept result }
{
    match op {
        ArithOp::Add => ranged(x.checked_add(y)),
        ArithOp::Sub => ranged(x.checked_sub(y)),
        ArithOp::Mul => ranged(x.checked_mul(y)),
        ArithOp::Div => quotient(x, y),
        ArithOp::Mod => Ok(remainder(x, y)),
    }
}

/// An operation on two values.
fn on_numbers(op: ArithOp, one: &Value, other: &Value) -> Result<Value, EvalFault>
    ensures told { (o : Outcome) → o ≡ on_numbers (arithmetic op) one.now other.now
        → Tells o result }
    ensures kept { GivesKept result }
{
    match (one, other) {
        (Value::Int(x), Value::Int(y)) => arithmetic(op, *x, *y),
        _ => Ok(Value::Null),
    }
}

/// An operation on what came of two operands.
pub(crate) fn calculated(
    op: ArithOp,
    one: Result<Held<'_>, EvalFault>,
    other: Result<Held<'_>, EvalFault>,
) -> Result<Value, EvalFault>
    ensures told { (x y : Outcome) → TellsHeld x one.entry → TellsHeld y other.entry
        → Tells (of_two (on_numbers (arithmetic op)) x y) result }
    ensures kept { GivesKept result }
{
    match one {
        Ok(one) => match other {
            Ok(other) => on_numbers(op, one.get(), other.get()),
            Err(fault) => Err(fault),
        },
        Err(fault) => Err(fault),
    }
}

/// The value with the other sign.
fn negative(value: &Value) -> Result<Value, EvalFault>
    ensures told { (o : Outcome) → o ≡ negative value.now → Tells o result }
    ensures kept { GivesKept result }
{
    match value {
        Value::Int(number) => ranged(number.checked_neg()),
        Value::Null | Value::Str { .. } => Ok(Value::Null),
    }
}

/// What came of an operand, with the other sign.
pub(crate) fn negated(operand: Result<Held<'_>, EvalFault>) -> Result<Value, EvalFault>
    ensures told { (o : Outcome) → TellsHeld o operand.entry → Tells (of_one negative o) result }
    ensures kept { GivesKept result }
{
    match operand {
        Ok(held) => negative(held.get()),
        Err(fault) => Err(fault),
    }
}
