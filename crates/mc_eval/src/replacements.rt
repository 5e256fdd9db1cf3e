ghost use Rattle.mc_charset.specs.Chars.{IsWellFormed, chars};
ghost use Rattle.mc_eval.specs.Outcomes.{IsKept, IsValue};
ghost use Rattle.mc_eval.specs.Taken.{AreTakenKept, taken_values};
ghost use Rattle.mc_eval.specs.TextFunctions.{replace_value, reverse_value};
ghost use Rattle.mc_eval.specs.Texts.{chars_in, spelled};
ghost use Rattle.mc_strfun.specs.Replaced.{replaced};
ghost use Rattle.std.specs.Prelude.{IfOk, reverse};

use crate::results::{limited, spelled};
use crate::taken::Taken;
use crate::text_operands::text_in;
use mc_base::{NoMemory, Text};
use mc_charset::Charset;
use mc_values::Value;
use std::alloc::Global;

/// A text backwards.
fn reverse_text(alloc: Global, set: Charset, text: &Text) -> Result<Value, NoMemory>
    requires { IsWellFormed set text.now }
    ensures { IfOk result (IsValue (spelled set (reverse (chars set text.now)))) }
{
    match mc_strfun::reverse(alloc, set, text) {
        Ok(backwards) => Ok(limited(set, backwards)),
        Err(NoMemory) => Err(NoMemory),
    }
}

/// An operand backwards.
fn reverse_of(alloc: Global, set: Charset, x: &Value) -> Result<Value, NoMemory>
    requires { IsKept x.now }
    ensures { IfOk result (IsValue (spelled set (reverse (chars_in set x.now)))) }
{
    match text_in(alloc, set, x) {
        Ok(text) => reverse_text(alloc, set, text.get()),
        Err(NoMemory) => Err(NoMemory),
    }
}

/// REVERSE.
pub(crate) fn reverse(
    alloc: Global,
    set: Charset,
    operands: Taken<'_, '_>,
) -> Result<Value, NoMemory>
    requires { AreTakenKept operands }
    ensures { IfOk result (IsValue (reverse_value set (taken_values operands.entry))) }
{
    match operands {
        Taken::One(x) => reverse_of(alloc, set, x),
        Taken::Zero | Taken::Two(..) | Taken::Three(..) | Taken::More(..) => Ok(Value::Null),
    }
}

/// A text in which each copy of another one is replaced by a third.
fn replace_text(
    alloc: Global,
    set: Charset,
    text: &Text,
    from: &Text,
    to: &Text,
) -> Result<Value, NoMemory>
    requires text { IsWellFormed set text.now }
    requires from { IsWellFormed set from.now }
    requires to { IsWellFormed set to.now }
    ensures { IfOk result (IsValue (spelled set
        (replaced (chars set from.now) (chars set to.now) (chars set text.now)))) }
{
    match mc_strfun::replace(alloc, set, text, from, to) {
        Ok(text) => Ok(spelled(set, text)),
        Err(NoMemory) => Err(NoMemory),
    }
}

/// The same of operands.
fn replace_of(
    alloc: Global,
    set: Charset,
    x: &Value,
    from: &Value,
    to: &Value,
) -> Result<Value, NoMemory>
    requires x { IsKept x.now }
    requires from { IsKept from.now }
    requires to { IsKept to.now }
    ensures { IfOk result (IsValue (spelled set
        (replaced (chars_in set from.now) (chars_in set to.now) (chars_in set x.now)))) }
{
    let text = text_in(alloc, set, x)?;
    let from = text_in(alloc, set, from)?;
    let to = text_in(alloc, set, to)?;
    replace_text(alloc, set, text.get(), from.get(), to.get())
}

/// REPLACE.
pub(crate) fn replace(
    alloc: Global,
    set: Charset,
    operands: Taken<'_, '_>,
) -> Result<Value, NoMemory>
    requires { AreTakenKept operands }
    ensures { IfOk result (IsValue (replace_value set (taken_values operands.entry))) }
{
    match operands {
        Taken::Three(x, from, to) => replace_of(alloc, set, x, from, to),
        Taken::Zero | Taken::One(_) | Taken::Two(..) | Taken::More(..) => Ok(Value::Null),
    }
}
