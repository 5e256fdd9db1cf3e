ghost use Rattle.mc_charset.specs.Chars.{Spells};
ghost use Rattle.mc_eval.specs.Functions.{digits_of, hex_value};
ghost use Rattle.mc_eval.specs.Outcomes.{IsValue};
ghost use Rattle.mc_eval.specs.Taken.{taken_values};
ghost use Rattle.mc_eval.specs.Texts.{spelled};
ghost use Rattle.mc_values.specs.Hexadecimal.{number_digits};
ghost use Rattle.mc_values.specs.declared.value.Value.TheVariants as value;
ghost use Rattle.std.specs.Prelude.{IfOk};
ghost use Rattle.std.specs.Str.{IsAscii};

use crate::results::limited;
use crate::taken::Taken;
use mc_base::{NoMemory, Text};
use mc_charset::Charset;
use mc_typing::Ty;
use mc_values::{Value, ascii_text, hex_law, push_hex_number};
use std::alloc::Global;

/// Digits, which are ASCII, as the text of a set.
fn digits_in(alloc: Global, set: Charset, digits: &Text) -> Result<Value, NoMemory>
    requires { IsAscii digits.now }
    ensures { IfOk result (IsValue (spelled set digits.now)) }
{
    match ascii_text(alloc, set, digits.as_slice()) {
        Ok(text) => Ok(limited(set, text)),
        Err(NoMemory) => Err(NoMemory),
    }
}

/// The digits of a number.
#[tactic(auto, using(crate::proofs::HexAscii::number_ascii))]
fn number_digits(alloc: Global, set: Charset, number: i64) -> Result<Value, NoMemory>
    ensures { IfOk result (IsValue (spelled set (number_digits number))) }
{
    let mut digits = Text::new(alloc);
    push_hex_number(alloc, &mut digits, number)?;
    digits_in(alloc, set, &digits)
}

/// The digits of the bytes of a text.
fn byte_digits(alloc: Global, set: Charset, from: Charset, text: &Text) -> Result<Value, NoMemory>
    ensures { IfOk result (IsValue (digits_of set (value.Str from text.now))) }
{
    hex_law(text.as_slice());
    let _from = from;
    match mc_strfun::hex(alloc, text) {
        Ok(Some(digits)) => digits_in(alloc, set, &digits),
        Ok(None) => Ok(Value::Null),
        Err(NoMemory) => Err(NoMemory),
    }
}

/// The digits of a value.
fn digits_of(alloc: Global, set: Charset, it: &Value) -> Result<Value, NoMemory>
    ensures { IfOk result (IsValue (digits_of set it.now)) }
{
    match it {
        Value::Null => Ok(Value::Null),
        Value::Int(number) => number_digits(alloc, set, *number),
        Value::Str { charset, text } => byte_digits(alloc, set, *charset, text),
    }
}

/// HEX.
pub(crate) fn hex(alloc: Global, ty: Ty, operands: Taken<'_, '_>) -> Result<Value, NoMemory>
    ensures { IfOk result (IsValue (hex_value ty (taken_values operands.entry))) }
{
    match ty {
        Ty::Null | Ty::Int => Ok(Value::Null),
        Ty::Str(operand) => match operands {
            Taken::One(it) => digits_of(alloc, operand.charset, it),
            Taken::Zero | Taken::Two(..) | Taken::Three(..) | Taken::More(..) => Ok(Value::Null),
        },
    }
}
