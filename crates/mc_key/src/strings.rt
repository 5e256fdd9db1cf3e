ghost use Rattle.mc_charset.specs.Chars.{IsWellFormed, chars};
ghost use Rattle.mc_key.specs.WeightString.{fitted, flat_bytes, list_bytes, space_code};
ghost use Rattle.mc_key.specs.WeightString.{weight_bytes, weight_string};
ghost use Rattle.mc_order.specs.Meaning.{first_chars};
ghost use Rattle.mc_values.specs.Values.{within_limit};
ghost use Rattle.std.specs.Prelude.{◌≡◌, ◌≤◌, ◌++◌, IfOk};

use crate::WeightForm;
use crate::padding::{missing_chars, push_copies, with_spaces};
use mc_base::{NoMemory, Text, Weights};
use mc_charset::chars_law;
use mc_order::{Collation, collation_laws};
use mc_values::GREATEST_STRING;
use std::alloc::Global;

/// The weight string of a text: each weight of its flat list less the collation's `added`, in
/// `weight_width` bytes, the greatest first, and a separator as zero bytes. None, which is NULL,
/// exactly where it would be longer than the greatest length of a string, 1,048,576 bytes; that is
/// known before it is built. MySQL 8.0 manual, 14.8, WEIGHT_STRING.
pub fn weight_string<C: Collation>(
    alloc: Global,
    collation: &C,
    text: &[u8],
    form: WeightForm,
) -> Result<Option<Text>, NoMemory>
    requires { IsWellFormed (C.meaning collation.now).charset text.now }
    ensures { IfOk result
        (λ string. string ≡ weight_string (C.meaning collation.now) form text.now) }
{
    match form {
        WeightForm::Plain => weights_of(alloc, collation, text, None),
        WeightForm::Chars(count) => weights_of_chars(alloc, collation, text, count),
        WeightForm::Bytes(count) => fitted_bytes(alloc, text, count),
    }
}

/// The weights of a text, or of its first characters, as bytes.
fn weights_of<C: Collation>(
    alloc: Global,
    collation: &C,
    text: &[u8],
    first: Option<u32>,
) -> Result<Option<Text>, NoMemory>
    requires { IsWellFormed (C.meaning collation.now).charset text.now }
    ensures { let m = C.meaning collation.now in IfOk result (λ string. string
        ≡ within_limit (flat_bytes m (first_chars first (chars m.charset text.now)))) }
{
    collation_laws(collation);
    let mut list = Weights::new(alloc);
    collation.put_list(text, first, &mut list)?;
    string_of(
        alloc,
        list.as_slice(),
        collation.weight_width(),
        collation.added(),
    )
}

/// The weights of so many characters of a text, with spaces behind it, as bytes.
#[tactic(auto, using(crate::proofs::Fitted::fits))]
fn weights_of_chars<C: Collation>(
    alloc: Global,
    collation: &C,
    text: &[u8],
    count: u32,
) -> Result<Option<Text>, NoMemory>
    requires { IsWellFormed (C.meaning collation.now).charset text.now }
    ensures { let m = C.meaning collation.now in IfOk result (λ string. string
        ≡ within_limit (flat_bytes m (fitted count space_code (chars m.charset text.now)))) }
{
    chars_law();
    let set = collation.charset();
    let missing = missing_chars(set, text, count);
    if missing == 0 {
        return weights_of(alloc, collation, text, Some(count));
    }
    let longer = with_spaces(alloc, set, text, missing)?;
    weights_of(alloc, collation, longer.as_slice(), None)
}

/// The bytes of weights, if they are no more than the greatest length.
#[tactic(auto, using(crate::proofs::WeightBytes::list_bytes_length))]
fn string_of(alloc: Global, list: &[u32], width: u8, added: u32) -> Result<Option<Text>, NoMemory>
    requires { width ≤ 3 }
    ensures { IfOk result (λ string. string ≡ within_limit (list_bytes width added list.now)) }
{
    let len = list.len().saturating_mul(usize::from(width));
    if len > GREATEST_STRING {
        return Ok(None);
    }
    let mut string = Text::new(alloc);
    string.reserve(len)?;
    push_weights(&mut string, list, width, added)?;
    Ok(Some(string))
}

/// Appends the bytes of weights.
#[tactic(auto, unfolding(crate::specs::WeightString::list_bytes))]
fn push_weights(out: &mut Text, list: &[u32], width: u8, added: u32) -> Result<(), NoMemory>
    requires { width ≤ 3 }
    ensures { IfOk result (λ _. out.new ≡ out.old ++ list_bytes width added list.now) }
{
    for weight in list {
        push_weight(out, *weight, width, added)?;
    }
    Ok(())
}

/// Appends the bytes of a weight.
fn push_weight(out: &mut Text, weight: u32, width: u8, added: u32) -> Result<(), NoMemory>
    requires { width ≤ 3 }
    ensures { IfOk result (λ _. out.new ≡ out.old ++ weight_bytes width added weight) }
{
    let bytes = weight.saturating_sub(added).to_be_bytes();
    out.extend_from_slice(&bytes[4 - usize::from(width)..])?;
    Ok(())
}

/// So many bytes of a text, with zero bytes behind it.
#[tactic(auto, using(crate::proofs::Fitted::fits))]
fn fitted_bytes(alloc: Global, text: &[u8], count: u32) -> Result<Option<Text>, NoMemory>
    ensures { IfOk result (λ string. string ≡ within_limit (fitted count 0 text.now)) }
{
    if count as usize > GREATEST_STRING {
        return Ok(None);
    }
    let kept = (count as usize).min(text.len());
    let mut string = Text::new(alloc);
    string.reserve(count as usize)?;
    string.extend_from_slice(&text[..kept])?;
    push_copies(&mut string, b"\0", count - kept as u32)?;
    Ok(Some(string))
}
