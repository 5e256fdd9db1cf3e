ghost use Rattle.mc_charset.specs.Chars.{IsWellFormed, chars};
ghost use Rattle.mc_eval.specs.Outcomes.{IsKept, IsValue};
ghost use Rattle.mc_eval.specs.Taken.{AreTakenKept, taken_values};
ghost use Rattle.mc_eval.specs.TextFunctions.{left_value, right_value, substring_value};
ghost use Rattle.mc_eval.specs.Texts.{chars_in, number_in, spelled};
ghost use Rattle.mc_strfun.specs.Slices.{left_of, right_of, substring_of};
ghost use Rattle.std.specs.Prelude.{◌<◌, ◌^◌, IfOk, length};

use crate::results::limited;
use crate::taken::Taken;
use crate::text_operands::{number_in, text_in};
use mc_base::{NoMemory, Text};
use mc_charset::Charset;
use mc_values::Value;
use std::alloc::Global;

/// The first characters of a text.
fn left_text(alloc: Global, set: Charset, text: &Text, count: i64) -> Result<Value, NoMemory>
    requires well_formed { IsWellFormed set text.now }
    requires below_4_gib { length text.now < 2 ^ 32 }
    ensures { IfOk result (IsValue (spelled set (left_of count (chars set text.now)))) }
{
    match mc_strfun::left(alloc, set, text, count) {
        Ok(cut) => Ok(limited(set, cut)),
        Err(NoMemory) => Err(NoMemory),
    }
}

/// The first characters of an operand.
fn left_of(alloc: Global, set: Charset, x: &Value, n: &Value) -> Result<Value, NoMemory>
    requires { IsKept x.now }
    ensures { IfOk result
        (IsValue (spelled set (left_of (number_in n.now) (chars_in set x.now)))) }
{
    match text_in(alloc, set, x) {
        Ok(text) => left_text(alloc, set, text.get(), number_in(n)),
        Err(NoMemory) => Err(NoMemory),
    }
}

/// LEFT.
pub(crate) fn left(alloc: Global, set: Charset, operands: Taken<'_, '_>) -> Result<Value, NoMemory>
    requires { AreTakenKept operands }
    ensures { IfOk result (IsValue (left_value set (taken_values operands.entry))) }
{
    match operands {
        Taken::Two(x, n) => left_of(alloc, set, x, n),
        Taken::Zero | Taken::One(_) | Taken::Three(..) | Taken::More(..) => Ok(Value::Null),
    }
}

/// The last characters of a text.
fn right_text(alloc: Global, set: Charset, text: &Text, count: i64) -> Result<Value, NoMemory>
    requires well_formed { IsWellFormed set text.now }
    requires below_4_gib { length text.now < 2 ^ 32 }
    ensures { IfOk result (IsValue (spelled set (right_of count (chars set text.now)))) }
{
    match mc_strfun::right(alloc, set, text, count) {
        Ok(cut) => Ok(limited(set, cut)),
        Err(NoMemory) => Err(NoMemory),
    }
}

/// The last characters of an operand.
fn right_of(alloc: Global, set: Charset, x: &Value, n: &Value) -> Result<Value, NoMemory>
    requires { IsKept x.now }
    ensures { IfOk result
        (IsValue (spelled set (right_of (number_in n.now) (chars_in set x.now)))) }
{
    match text_in(alloc, set, x) {
        Ok(text) => right_text(alloc, set, text.get(), number_in(n)),
        Err(NoMemory) => Err(NoMemory),
    }
}

/// RIGHT.
pub(crate) fn right(alloc: Global, set: Charset, operands: Taken<'_, '_>) -> Result<Value, NoMemory>
    requires { AreTakenKept operands }
    ensures { IfOk result (IsValue (right_value set (taken_values operands.entry))) }
{
    match operands {
        Taken::Two(x, n) => right_of(alloc, set, x, n),
        Taken::Zero | Taken::One(_) | Taken::Three(..) | Taken::More(..) => Ok(Value::Null),
    }
}

/// The characters of a text from one with a number on.
fn substring_text(
    alloc: Global,
    set: Charset,
    text: &Text,
    first: i64,
    count: Option<i64>,
) -> Result<Value, NoMemory>
    requires well_formed { IsWellFormed set text.now }
    requires below_4_gib { length text.now < 2 ^ 32 }
    ensures { IfOk result
        (IsValue (spelled set (substring_of first count (chars set text.now)))) }
{
    match mc_strfun::substring(alloc, set, text, first, count) {
        Ok(cut) => Ok(limited(set, cut)),
        Err(NoMemory) => Err(NoMemory),
    }
}

/// The characters of an operand from one with a number on.
fn substring_of(
    alloc: Global,
    set: Charset,
    x: &Value,
    first: &Value,
    count: Option<i64>,
) -> Result<Value, NoMemory>
    requires { IsKept x.now }
    ensures { IfOk result (IsValue (spelled set
        (substring_of (number_in first.now) count (chars_in set x.now)))) }
{
    match text_in(alloc, set, x) {
        Ok(text) => substring_text(alloc, set, text.get(), number_in(first), count),
        Err(NoMemory) => Err(NoMemory),
    }
}

/// SUBSTRING, with a length or without one.
pub(crate) fn substring(
    alloc: Global,
    set: Charset,
    operands: Taken<'_, '_>,
) -> Result<Value, NoMemory>
    requires { AreTakenKept operands }
    ensures { IfOk result (IsValue (substring_value set (taken_values operands.entry))) }
{
    match operands {
        Taken::Two(x, first) => substring_of(alloc, set, x, first, None),
        Taken::Three(x, first, count) => {
            substring_of(alloc, set, x, first, Some(number_in(count)))
        },
        Taken::Zero | Taken::One(_) | Taken::More(..) => Ok(Value::Null),
    }
}
