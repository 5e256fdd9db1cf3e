ghost use Rattle.mc_charset.specs.Chars.{IsWellFormed, chars};
ghost use Rattle.mc_eval.specs.Outcomes.{IsKept, IsValue};
ghost use Rattle.mc_eval.specs.Taken.{AreTakenKept, taken_values};
ghost use Rattle.mc_eval.specs.TextFunctions.{trim_value};
ghost use Rattle.mc_eval.specs.Texts.{chars_in, spelled};
ghost use Rattle.mc_key.specs.WeightString.{space_code};
ghost use Rattle.mc_strfun.specs.Trimmed.{trimmed};
ghost use Rattle.std.specs.Prelude.{◌≡◌, [], ◌∷◌, IfOk};

use crate::results::limited;
use crate::taken::Taken;
use crate::text_operands::text_in;
use mc_base::{NoMemory, Text};
use mc_charset::{Charset, chars_law};
use mc_strfun::Side;
use mc_values::{Value, ascii_text};
use std::alloc::Global;

/// A text without the copies of another one at a side.
fn trim_text(
    alloc: Global,
    side: Side,
    set: Charset,
    removed: &Text,
    text: &Text,
) -> Result<Value, NoMemory>
    requires removed { IsWellFormed set removed.now }
    requires text { IsWellFormed set text.now }
    ensures { IfOk result
        (IsValue (spelled set (trimmed side (chars set removed.now) (chars set text.now)))) }
{
    match mc_strfun::trim(alloc, set, side, removed, text) {
        Ok(left) => Ok(limited(set, left)),
        Err(NoMemory) => Err(NoMemory),
    }
}

/// An operand without the copies of another one at a side.
fn trim_of(
    alloc: Global,
    side: Side,
    set: Charset,
    removed: &Value,
    x: &Value,
) -> Result<Value, NoMemory>
    requires removed { IsKept removed.now }
    requires x { IsKept x.now }
    ensures { IfOk result
        (IsValue (spelled set (trimmed side (chars_in set removed.now) (chars_in set x.now)))) }
{
    let removed = text_in(alloc, set, removed)?;
    let text = text_in(alloc, set, x)?;
    trim_text(alloc, side, set, removed.get(), text.get())
}

/// The space of a set.
fn space(alloc: Global, set: Charset) -> Result<Text, NoMemory>
    ensures well_formed { IfOk result (IsWellFormed set) }
    ensures chars { IfOk result (λ text. chars set text ≡ space_code ∷ []) }
{
    chars_law();
    ascii_text(alloc, set, b" ")
}

/// An operand without the spaces at a side.
fn trim_spaces(alloc: Global, side: Side, set: Charset, x: &Value) -> Result<Value, NoMemory>
    requires { IsKept x.now }
    ensures { IfOk result
        (IsValue (spelled set (trimmed side (space_code ∷ []) (chars_in set x.now)))) }
{
    let removed = space(alloc, set)?;
    let text = text_in(alloc, set, x)?;
    trim_text(alloc, side, set, &removed, text.get())
}

/// TRIM, of spaces or of the text that stands first.
pub(crate) fn trim(
    alloc: Global,
    side: Side,
    set: Charset,
    operands: Taken<'_, '_>,
) -> Result<Value, NoMemory>
    requires { AreTakenKept operands }
    ensures { IfOk result (IsValue (trim_value side set (taken_values operands.entry))) }
{
    match operands {
        Taken::One(x) => trim_spaces(alloc, side, set, x),
        Taken::Two(removed, x) => trim_of(alloc, side, set, removed, x),
        Taken::Zero | Taken::Three(..) | Taken::More(..) => Ok(Value::Null),
    }
}
