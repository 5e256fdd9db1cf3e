ghost use Rattle.mc_eval.specs.Arithmetic.{remainder};
ghost use Rattle.mc_eval.specs.Fit.{uses_fit};
ghost use Rattle.mc_eval.specs.Functions.{
  byte_length,
  char_length,
  char_length_value,
  length_value,
  mod_value,
  rest_of,
  sign_between,
  sign_of,
  strcmp_value,
};
ghost use Rattle.mc_eval.specs.Outcomes.{IsKept, IsValue};
ghost use Rattle.mc_eval.specs.Taken.{AreTakenKept, taken_values};
ghost use Rattle.std.specs.Prelude.{◌≡◌, ◌<◌, IfOk, IsTrue};

use crate::arithmetic::remainder;
use crate::comparisons::text_order;
use crate::taken::Taken;
use mc_base::NoMemory;
use mc_charset::{CollId, char_count};
use mc_coerce::Operand;
use mc_order::Book;
use mc_values::Value;
use std::alloc::Global;
use std::cmp::Ordering;

/// The number of characters of a text.
fn char_length_of(it: &Value) -> Value
    requires { IsKept it.now }
    ensures { IsValue (char_length it.now) result }
{
    match it {
        Value::Str { charset, text } => {
            Value::Int(i64::from(char_count(*charset, text.as_slice())))
        }
        Value::Null | Value::Int(_) => Value::Null,
    }
}

/// CHAR_LENGTH.
pub(crate) fn char_length(operands: Taken<'_, '_>) -> Value
    requires { AreTakenKept operands }
    ensures { IsValue (char_length_value (taken_values operands.entry)) result }
{
    match operands {
        Taken::One(it) => char_length_of(it),
        Taken::Zero | Taken::Two(..) | Taken::Three(..) | Taken::More(..) => Value::Null,
    }
}

/// The number of bytes of a text.
fn length_of(it: &Value) -> Value
    requires { IsKept it.now }
    ensures { IsValue (byte_length it.now) result }
{
    match it {
        Value::Str { text, .. } => Value::Int(text.len() as i64),
        Value::Null | Value::Int(_) => Value::Null,
    }
}

/// LENGTH.
pub(crate) fn length(operands: Taken<'_, '_>) -> Value
    requires { AreTakenKept operands }
    ensures { IsValue (length_value (taken_values operands.entry)) result }
{
    match operands {
        Taken::One(it) => length_of(it),
        Taken::Zero | Taken::Two(..) | Taken::Three(..) | Taken::More(..) => Value::Null,
    }
}

/// -1, 0 or 1.
fn sign_of(order: Ordering) -> i64
    ensures { result ≡ sign_of order }
{
    match order {
        Ordering::Less => -1,
        Ordering::Equal => 0,
        Ordering::Greater => 1,
    }
}

/// How two texts stand to one another by a collation.
fn sign_between<B: Book>(
    alloc: Global,
    book: &B,
    id: CollId,
    one: &Value,
    other: &Value,
) -> Result<Value, NoMemory>
    requires in_book { id.0 < B.count book.now }
    requires one { IsKept one.now }
    requires other { IsKept other.now }
    ensures { IfOk result (IsValue (sign_between (B.meaning book.now id.0) one.now other.now)) }
{
    match (one, other) {
        (
            Value::Str { charset, text },
            Value::Str {
                charset: set,
                text: more,
            },
        ) => match text_order(alloc, book, id, *charset, text, *set, more) {
            Ok(order) => Ok(Value::Int(sign_of(order))),
            Err(NoMemory) => Err(NoMemory),
        },
        _ => Ok(Value::Null),
    }
}

/// STRCMP.
pub(crate) fn strcmp<B: Book>(
    alloc: Global,
    book: &B,
    uses: Option<Operand>,
    operands: Taken<'_, '_>,
) -> Result<Value, NoMemory>
    requires uses { IsTrue (uses_fit (B.count book.now) uses) }
    requires kept { AreTakenKept operands }
    ensures { IfOk result
        (IsValue (strcmp_value (B.meaning book.now) uses (taken_values operands.entry))) }
{
    match uses {
        None => Ok(Value::Null),
        Some(operand) => match operands {
            Taken::Two(one, other) => sign_between(alloc, book, operand.collation, one, other),
            Taken::Zero | Taken::One(_) | Taken::Three(..) | Taken::More(..) => Ok(Value::Null),
        },
    }
}

/// The remainder of two numbers.
fn rest_of(one: &Value, other: &Value) -> Value
    ensures { IsValue (rest_of one.now other.now) result }
{
    match (one, other) {
        (Value::Int(x), Value::Int(y)) => remainder(*x, *y),
        _ => Value::Null,
    }
}

/// MOD.
pub(crate) fn modulo(operands: Taken<'_, '_>) -> Value
    ensures { IsValue (mod_value (taken_values operands.entry)) result }
{
    match operands {
        Taken::Two(one, other) => rest_of(one, other),
        Taken::Zero | Taken::One(_) | Taken::Three(..) | Taken::More(..) => Value::Null,
    }
}
