ghost use Rattle.std.specs.Prelude.{◌≡◌, ◌≤◌, IfSome, IfOk, map, min, true};
ghost use Rattle.std.specs.Char.{is_ascii_digit, to_ascii_lowercase};
ghost use Rattle.std.specs.List.{list_all};
ghost use Rattle.mc_catalog.specs.Lawful.{IsLawfulName};
ghost use Rattle.mc_catalog.specs.Words.{
  is_name_byte,
  is_name,
  field_name,
  is_decimal,
  decimal_value,
  decimal_of,
  length_of,
  kind_of,
};

use crate::Kind;
use mc_base::{NoMemory, Text};
use std::alloc::Global;

/// The greatest number that is told apart: each length is smaller.
const GREATEST: u32 = 65_535;

/// The name that a field is, in lower case; None where it is none.
#[tactic(auto, unfolding(crate::specs::Words::field_name), using(crate::proofs::LawfulNames::lower_lawful))]
pub(crate) fn read_name(alloc: Global, field: &[u8]) -> Result<Option<Text>, NoMemory>
    ensures value { IfOk result (λ name. name ≡ field_name field.now) }
    ensures lawful { IfOk result (λ name. IfSome name IsLawfulName) }
{
    if !is_name(field) {
        return Ok(None);
    }
    match lower_case(alloc, field) {
        Ok(name) => Ok(Some(name)),
        Err(error) => Err(error),
    }
}

/// Whether a field is a name.
fn is_name(field: &[u8]) -> bool
    ensures { result ≡ is_name field.now }
{
    match field {
        [first, ..] => { field.len() <= 64 && !first.is_ascii_digit() && are_name_bytes(field) }
        [] => false,
    }
}

/// Whether each byte may stand in a name.
fn are_name_bytes(field: &[u8]) -> bool
    ensures { result ≡ list_all is_name_byte field.now }
{
    field.iter().all(|byte| is_name_byte(*byte))
}

/// Whether a byte may stand in a name.
fn is_name_byte(byte: u8) -> bool
    ensures { result ≡ is_name_byte byte }
{
    byte.is_ascii_alphanumeric() || byte == b'_' || byte == b'$'
}

/// The bytes, with A to Z as a to z.
fn lower_case(alloc: Global, field: &[u8]) -> Result<Text, NoMemory>
    ensures { IfOk result (λ text. text ≡ map to_ascii_lowercase field.now) }
{
    let mut text = Text::new(alloc);
    for byte in field {
        text.push(byte.to_ascii_lowercase())?;
    }
    Ok(text)
}

/// The decimal number that a field is, at most 65,535; None where it is none, or has a leading
/// zero.
#[tactic(auto, unfolding(crate::specs::Words::decimal_of))]
pub(crate) fn read_number(field: &[u8]) -> Option<u32>
    ensures { result ≡ decimal_of field.now }
{
    if !is_decimal(field) {
        return None;
    }
    Some(decimal_value(field))
}

/// The value of decimal digits, at most 65,535.
fn decimal_value(digits: &[u8]) -> u32
    requires { list_all is_ascii_digit digits.now ≡ true }
    ensures { result ≡ min 65535 (decimal_value digits.now) }
{
    let mut value = 0;
    for digit in digits {
        value = (value * 10 + u32::from(*digit - b'0')).min(GREATEST);
    }
    value
}

/// Whether a field is a decimal number without a leading zero.
fn is_decimal(field: &[u8]) -> bool
    ensures { result ≡ is_decimal field.now }
{
    match field {
        [first, ..] => { !(*first == b'0' && field.len() >= 2) && are_digits(field) }
        [] => false,
    }
}

/// Whether each byte is a digit.
fn are_digits(field: &[u8]) -> bool
    ensures { result ≡ list_all is_ascii_digit field.now }
{
    field.iter().all(|byte| byte.is_ascii_digit())
}

/// The length that a field is, from 1 to a limit.
#[tactic(auto, unfolding(crate::specs::Words::length_of))]
pub(crate) fn read_length(limit: u32, field: &[u8]) -> Option<u32>
    ensures value { result ≡ length_of limit field.now }
    ensures within { IfSome result (λ n. (1 ≤ n) × (n ≤ limit)) }
{
    match read_number(field) {
        Some(n) => { if 1 <= n && n <= limit { Some(n) } else { None } }
        None => None,
    }
}

/// The kind that a field names, in lower case as written.
#[tactic(auto, unfolding(crate::specs::Words::kind_of))]
pub(crate) fn read_kind(field: &[u8]) -> Option<Kind>
    ensures { result ≡ kind_of field.now }
{
    if field == b"table8".as_slice() {
        Some(Kind::Table8)
    } else if field == b"general".as_slice() {
        Some(Kind::General)
    } else if field == b"uca400".as_slice() {
        Some(Kind::Uca400)
    } else if field == b"uca520".as_slice() {
        Some(Kind::Uca520)
    } else if field == b"uca900_ai_ci".as_slice() {
        Some(Kind::Uca900AiCi)
    } else if field == b"uca900_as_ci".as_slice() {
        Some(Kind::Uca900AsCi)
    } else if field == b"uca900_as_cs".as_slice() {
        Some(Kind::Uca900AsCs)
    } else {
        None
    }
}
