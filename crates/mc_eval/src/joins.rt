ghost use Rattle.mc_charset.specs.Chars.{IsWellFormed, chars};
ghost use Rattle.mc_eval.specs.Held.{AreKept, held_values};
ghost use Rattle.mc_eval.specs.Outcomes.{IsKept, IsValue};
ghost use Rattle.mc_eval.specs.SetTexts.{set_text};
ghost use Rattle.mc_eval.specs.TextFunctions.{concat_value, concat_ws_value, given};
ghost use Rattle.mc_eval.specs.Texts.{chars_in, spelled, text_in};
ghost use Rattle.mc_strfun.specs.Joins.{joined_with};
ghost use Rattle.std.specs.Prelude.{◌≡◌, All, IfOk, map};

use crate::comparisons::is_null;
use crate::held::Held;
use crate::results::spelled;
use crate::text_operands::text_in;
use crate::texts::SetText;
use mc_base::{List, NoMemory, Text};
use mc_charset::Charset;
use mc_strfun::{concat_texts, concat_texts_ws};
use mc_values::Value;
use std::alloc::Global;

/// The texts of operands in a set, but those that are NULL.
fn texts_in<'a>(
    alloc: Global,
    set: Charset,
    operands: &'a [Held<'_>],
) -> Result<List<SetText<'a>>, NoMemory>
    requires { AreKept operands.now }
    ensures are { IfOk result (λ texts.
        map set_text texts ≡ map (text_in set) (given (held_values operands.now))) }
    ensures well_formed { IfOk result (All (λ text. IsWellFormed set (set_text text))) }
{
    let mut texts = List::new(alloc);
    for operand in operands {
        let value = operand.get();
        if !is_null(value) {
            texts.push(text_in(alloc, set, value)?)?;
        }
    }
    Ok(texts)
}

/// CONCAT.
pub(crate) fn concat(alloc: Global, set: Charset, operands: &[Held<'_>]) -> Result<Value, NoMemory>
    requires { AreKept operands.now }
    ensures { IfOk result (IsValue (concat_value set (held_values operands.now))) }
{
    let texts = texts_in(alloc, set, operands)?;
    match concat_texts(alloc, set, texts.as_slice()) {
        Ok(text) => Ok(spelled(set, text)),
        Err(NoMemory) => Err(NoMemory),
    }
}

/// The texts with a separator between two.
fn separated(
    alloc: Global,
    set: Charset,
    separator: &Text,
    texts: &[SetText<'_>],
) -> Result<Value, NoMemory>
    requires separator { IsWellFormed set separator.now }
    requires texts { All (λ text. IsWellFormed set (set_text text)) texts.now }
    ensures { IfOk result (IsValue (spelled set (joined_with (chars set separator.now)
        (map (λ text. chars set (set_text text)) texts.now)))) }
{
    match concat_texts_ws(alloc, set, separator, texts) {
        Ok(text) => Ok(spelled(set, text)),
        Err(NoMemory) => Err(NoMemory),
    }
}

/// The operands that are not NULL with a separator between two.
fn joined_by(
    alloc: Global,
    set: Charset,
    separator: &Value,
    operands: &[Held<'_>],
) -> Result<Value, NoMemory>
    requires separator { IsKept separator.now }
    requires operands { AreKept operands.now }
    ensures { IfOk result (IsValue (spelled set (joined_with (chars_in set separator.now)
        (map (chars_in set) (given (held_values operands.now)))))) }
{
    let separator = text_in(alloc, set, separator)?;
    let texts = texts_in(alloc, set, operands)?;
    separated(alloc, set, separator.get(), texts.as_slice())
}

/// CONCAT_WS.
pub(crate) fn concat_ws(
    alloc: Global,
    set: Charset,
    operands: &[Held<'_>],
) -> Result<Value, NoMemory>
    requires { AreKept operands.now }
    ensures { IfOk result (IsValue (concat_ws_value set (held_values operands.now))) }
{
    match operands {
        [] => Ok(Value::Null),
        [separator, others @ ..] => joined_by(alloc, set, separator.get(), others),
    }
}
