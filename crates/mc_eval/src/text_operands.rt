ghost use Rattle.mc_charset.specs.Chars.{IsWellFormed};
ghost use Rattle.mc_eval.specs.Held.{held_value};
ghost use Rattle.mc_eval.specs.SetTexts.{set_text};
ghost use Rattle.mc_eval.specs.Texts.{is_null, number_in, text_in};
ghost use Rattle.mc_values.specs.Values.{IsTextOfSet};
ghost use Rattle.std.specs.List.{list_any};
ghost use Rattle.std.specs.Prelude.{◌≡◌, ◌<◌, ◌^◌, [], IfOk, length};

use crate::comparisons::is_null;
use crate::held::Held;
use crate::texts::{SetText, in_set};
use mc_base::{NoMemory, Text};
use mc_charset::{Charset, chars_law};
use mc_values::Value;
use std::alloc::Global;

/// The number of an operand.
pub(crate) fn number_in(value: &Value) -> i64
    ensures { result ≡ number_in value.now }
{
    match value {
        Value::Int(number) => *number,
        Value::Null | Value::Str { .. } => 0,
    }
}

/// The text of an operand in a set.
pub(crate) fn text_in<'a>(
    alloc: Global,
    set: Charset,
    value: &'a Value,
) -> Result<SetText<'a>, NoMemory>
    requires { IsTextOfSet value.now }
    ensures is { IfOk result (λ it. set_text it ≡ text_in set value.now) }
    ensures well_formed { IfOk result (λ it. IsWellFormed set (set_text it)) }
    ensures below_4_gib { IfOk result (λ it. length (set_text it) < 2 ^ 32) }
{
    match value {
        Value::Str { charset, text } => in_set(alloc, set, *charset, text),
        Value::Null | Value::Int(_) => Ok(SetText::Made(empty(alloc, set))),
    }
}

/// The empty text, which is one of each set.
#[tactic(auto, using(crate::proofs::Spelled::empty))]
fn empty(alloc: Global, set: Charset) -> Text
    ensures is { result ≡ [] }
    ensures well_formed { IsWellFormed set result }
{
    chars_law();
    let _set = set;
    Text::new(alloc)
}

/// Whether one of the operands is NULL.
pub(crate) fn some_null(values: &[Held<'_>]) -> bool
    ensures { result ≡ list_any (λ held. is_null (held_value held)) values.now }
{
    values.iter().any(|held| is_null(held.get()))
}
