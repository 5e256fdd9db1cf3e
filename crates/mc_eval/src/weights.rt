ghost use Rattle.mc_eval.specs.Fit.{type_fits};
ghost use Rattle.mc_eval.specs.Held.{HoldsKept, TellsHeld};
ghost use Rattle.mc_eval.specs.Outcomes.{GivesKept, IsKept, IsValue, Outcome, Tells, of_one};
ghost use Rattle.mc_eval.specs.Outcomes.Outcome.{gives};
ghost use Rattle.mc_charset.specs.declared.charset.Charset.TheVariants.{Binary};
ghost use Rattle.mc_eval.specs.Texts.{text_or_null};
ghost use Rattle.mc_values.specs.Values.{greatest_string};
ghost use Rattle.mc_eval.specs.Weights.{count_of, form_of, weighed, weighed_by};
ghost use Rattle.std.specs.Prelude.{◌≡◌, ◌<◌, ◌≤◌, IfOk, IfSome, IsTrue, length};

use crate::fault::EvalFault;
use crate::held::Held;
use crate::texts::in_set;
use mc_ast::Cut;
use mc_base::{NoMemory, Text};
use mc_charset::{Charset, CollId, bytes_law};
use mc_key::{WeightForm, weight_string};
use mc_order::{Book, Collation};
use mc_typing::Ty;
use mc_values::Value;
use std::alloc::Global;

/// A length as a number of 32 bits.
fn count_of(length: i64) -> u32
    ensures { result ≡ count_of length }
{
    if length < 0 {
        0
    } else if length < 0xFFFF_FFFF {
        length as u32
    } else {
        u32::MAX
    }
}

/// The form that is asked for.
fn form_of(cut: Option<Cut>) -> WeightForm
    ensures { result ≡ form_of cut }
{
    match cut {
        None => WeightForm::Plain,
        Some(Cut::Chars(length)) => WeightForm::Chars(count_of(length)),
        Some(Cut::Bytes(length)) => WeightForm::Bytes(count_of(length)),
    }
}

/// The weight string of a text by a collation.
fn weighed_by<B: Book>(
    alloc: Global,
    book: &B,
    id: CollId,
    form: WeightForm,
    value: &Value,
) -> Result<Value, NoMemory>
    requires in_book { id.0 < B.count book.now }
    requires kept { IsKept value.now }
    ensures { IfOk result (IsValue (weighed_by (B.meaning book.now id.0) form value.now)) }
{
    match value {
        Value::Str { charset, text } => {
            let collation = book.by_id(id);
            let text = in_set(alloc, collation.charset(), *charset, text)?;
            let weights = weight_string(alloc, collation, text.get().as_slice(), form)?;
            Ok(bytes_or_null(weights))
        }
        Value::Null | Value::Int(_) => Ok(Value::Null),
    }
}

/// Bytes as a value.
fn bytes_or_null(bytes: Option<Text>) -> Value
    requires { IfSome bytes (λ kept. length kept ≤ greatest_string) }
    ensures { IsValue (text_or_null Binary bytes) result }
{
    match bytes {
        Some(bytes) => {
            bytes_law(bytes.as_slice());
            Value::Str {
                charset: Charset::Binary,
                text: bytes,
            }
        }
        None => Value::Null,
    }
}

/// The weight string of a value of a type.
fn weighed<B: Book>(
    alloc: Global,
    book: &B,
    cut: Option<Cut>,
    ty: Ty,
    value: &Value,
) -> Result<Value, NoMemory>
    requires in_book { IsTrue (type_fits (B.count book.now) ty) }
    requires kept { IsKept value.now }
    ensures { IfOk result (IsValue (weighed (B.meaning book.now) cut ty value.now)) }
{
    match ty {
        Ty::Str(operand) => weighed_by(alloc, book, operand.collation, form_of(cut), value),
        Ty::Null | Ty::Int => Ok(Value::Null),
    }
}

/// The weight string of what came of an operand of a type.
pub(crate) fn weight_value<B: Book>(
    alloc: Global,
    book: &B,
    cut: Option<Cut>,
    ty: Ty,
    operand: Result<Held<'_>, EvalFault>,
) -> Result<Value, EvalFault>
    requires in_book { IsTrue (type_fits (B.count book.now) ty) }
    requires kept { HoldsKept operand }
    ensures told { (o : Outcome) → TellsHeld o operand.entry →
        Tells (of_one (λ it. gives (weighed (B.meaning book.now) cut ty it)) o) result }
    ensures kept { GivesKept result }
{
    match operand {
        Ok(held) => match weighed(alloc, book, cut, ty, held.get()) {
            Ok(value) => Ok(value),
            Err(NoMemory) => Err(EvalFault::NoMemory),
        },
        Err(fault) => Err(fault),
    }
}
