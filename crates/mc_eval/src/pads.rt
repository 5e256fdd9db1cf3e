ghost use Rattle.mc_charset.specs.Chars.{IsWellFormed, chars};
ghost use Rattle.mc_eval.specs.Outcomes.{IsKept, IsValue};
ghost use Rattle.mc_eval.specs.Taken.{AreTakenKept, taken_values};
ghost use Rattle.mc_eval.specs.TextFunctions.{lpad_value, repeat_value, rpad_value};
ghost use Rattle.mc_eval.specs.Texts.{chars_in, number_in, spelled, text_or_null};
ghost use Rattle.mc_strfun.specs.Joins.{spelled_within};
ghost use Rattle.mc_strfun.specs.Numbers.{natural};
ghost use Rattle.mc_strfun.specs.Pads.{left_padded, right_padded};
ghost use Rattle.std.specs.List.{repeat};
ghost use Rattle.std.specs.Option.{option_and_then};
ghost use Rattle.std.specs.Prelude.{◌<◌, ◌^◌, IfOk, length};

use crate::results::{repeated, within};
use crate::taken::Taken;
use crate::text_operands::{number_in, text_in};
use mc_base::{NoMemory, Text};
use mc_charset::{Charset, chars_law};
use mc_strfun::repeat_law;
use mc_values::Value;
use std::alloc::Global;

/// A text padded in front.
fn lpad_text(
    alloc: Global,
    set: Charset,
    text: &Text,
    count: i64,
    pad: &Text,
) -> Result<Value, NoMemory>
    requires text { IsWellFormed set text.now }
    requires pad { IsWellFormed set pad.now }
    requires text_below_4_gib { length text.now < 2 ^ 32 }
    requires pad_below_4_gib { length pad.now < 2 ^ 32 }
    ensures { IfOk result (IsValue (text_or_null set (option_and_then (spelled_within set)
        (left_padded count (chars set pad.now) (chars set text.now))))) }
{
    match mc_strfun::lpad(alloc, set, text, count, pad) {
        Ok(padded) => Ok(within(set, padded)),
        Err(NoMemory) => Err(NoMemory),
    }
}

/// An operand padded in front.
fn lpad_of(
    alloc: Global,
    set: Charset,
    x: &Value,
    n: &Value,
    pad: &Value,
) -> Result<Value, NoMemory>
    requires x { IsKept x.now }
    requires pad { IsKept pad.now }
    ensures { IfOk result (IsValue (text_or_null set (option_and_then (spelled_within set)
        (left_padded (number_in n.now) (chars_in set pad.now) (chars_in set x.now))))) }
{
    let text = text_in(alloc, set, x)?;
    let pad = text_in(alloc, set, pad)?;
    lpad_text(alloc, set, text.get(), number_in(n), pad.get())
}

/// LPAD.
pub(crate) fn lpad(alloc: Global, set: Charset, operands: Taken<'_, '_>) -> Result<Value, NoMemory>
    requires { AreTakenKept operands }
    ensures { IfOk result (IsValue (lpad_value set (taken_values operands.entry))) }
{
    match operands {
        Taken::Three(x, n, pad) => lpad_of(alloc, set, x, n, pad),
        Taken::Zero | Taken::One(_) | Taken::Two(..) | Taken::More(..) => Ok(Value::Null),
    }
}

/// A text padded at the end.
fn rpad_text(
    alloc: Global,
    set: Charset,
    text: &Text,
    count: i64,
    pad: &Text,
) -> Result<Value, NoMemory>
    requires text { IsWellFormed set text.now }
    requires pad { IsWellFormed set pad.now }
    requires text_below_4_gib { length text.now < 2 ^ 32 }
    requires pad_below_4_gib { length pad.now < 2 ^ 32 }
    ensures { IfOk result (IsValue (text_or_null set (option_and_then (spelled_within set)
        (right_padded count (chars set pad.now) (chars set text.now))))) }
{
    match mc_strfun::rpad(alloc, set, text, count, pad) {
        Ok(padded) => Ok(within(set, padded)),
        Err(NoMemory) => Err(NoMemory),
    }
}

/// An operand padded at the end.
fn rpad_of(
    alloc: Global,
    set: Charset,
    x: &Value,
    n: &Value,
    pad: &Value,
) -> Result<Value, NoMemory>
    requires x { IsKept x.now }
    requires pad { IsKept pad.now }
    ensures { IfOk result (IsValue (text_or_null set (option_and_then (spelled_within set)
        (right_padded (number_in n.now) (chars_in set pad.now) (chars_in set x.now))))) }
{
    let text = text_in(alloc, set, x)?;
    let pad = text_in(alloc, set, pad)?;
    rpad_text(alloc, set, text.get(), number_in(n), pad.get())
}

/// RPAD.
pub(crate) fn rpad(alloc: Global, set: Charset, operands: Taken<'_, '_>) -> Result<Value, NoMemory>
    requires { AreTakenKept operands }
    ensures { IfOk result (IsValue (rpad_value set (taken_values operands.entry))) }
{
    match operands {
        Taken::Three(x, n, pad) => rpad_of(alloc, set, x, n, pad),
        Taken::Zero | Taken::One(_) | Taken::Two(..) | Taken::More(..) => Ok(Value::Null),
    }
}

/// Copies of a text.
fn copies_text(alloc: Global, set: Charset, text: &Text, count: i64) -> Result<Value, NoMemory>
    requires { IsWellFormed set text.now }
    ensures { IfOk result (IsValue (spelled set (repeat (natural count) (chars set text.now)))) }
{
    chars_law();
    repeat_law();
    match mc_strfun::repeat(alloc, text, count) {
        Ok(copies) => Ok(repeated(set, copies)),
        Err(NoMemory) => Err(NoMemory),
    }
}

/// Copies of an operand.
fn copies_of(alloc: Global, set: Charset, x: &Value, n: &Value) -> Result<Value, NoMemory>
    requires { IsKept x.now }
    ensures { IfOk result
        (IsValue (spelled set (repeat (natural (number_in n.now)) (chars_in set x.now)))) }
{
    match text_in(alloc, set, x) {
        Ok(text) => copies_text(alloc, set, text.get(), number_in(n)),
        Err(NoMemory) => Err(NoMemory),
    }
}

/// REPEAT.
pub(crate) fn repeat(
    alloc: Global,
    set: Charset,
    operands: Taken<'_, '_>,
) -> Result<Value, NoMemory>
    requires { AreTakenKept operands }
    ensures { IfOk result (IsValue (repeat_value set (taken_values operands.entry))) }
{
    match operands {
        Taken::Two(x, n) => copies_of(alloc, set, x, n),
        Taken::Zero | Taken::One(_) | Taken::Three(..) | Taken::More(..) => Ok(Value::Null),
    }
}
