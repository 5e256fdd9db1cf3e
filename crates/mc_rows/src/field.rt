ghost use Rattle.std.specs.Prelude.{◌≡◌, ◌<◌, ◌≤◌, ◌^◌, IfOk, IsUtf8, Ok, Some, length, true};
ghost use Rattle.mc_catalog.specs.Lawful.{IsLawfulType};
ghost use Rattle.mc_rows.specs.Fields.{
  IsOfType,
  binary_value,
  field_value,
  text_value,
  typed_value,
  without_end_spaces,
};
ghost use Rattle.mc_charset.specs.Chars.{IsWellFormed};
ghost use Rattle.mc_charset.specs.declared.charset.Charset.TheVariants.{Binary};
ghost use Rattle.mc_rows.specs.HexBytes.{hex_bytes, padded};
ghost use Rattle.mc_values.specs.declared.value.Value.TheVariants.{Str};
ghost use Rattle.mc_rows.specs.Told.{Gives, IsOfLength, IsOfSet, kept_bytes};

use crate::fault::RowsFaultKind;
use crate::fit::{FitFault, fit_text};
use crate::hex::{hex_bytes, pad_zeros};
use crate::number::bigint_of;
use mc_base::{NoMemory, Text};
use mc_catalog::{Catalog, ColumnType, collation_set};
use mc_charset::{Charset, bytes_law, utf8_law};
use mc_values::Value;
use std::alloc::Global;

/// The field that is NULL.
const NULL: &[u8] = b"\\N";

/// A field, which is UTF-8, as a value of a column's type.
#[tactic(auto, unfolding(crate::specs::Fields::field_value))]
pub(crate) fn field_value(
    alloc: Global,
    catalog: &Catalog,
    ty: ColumnType,
    field: &[u8],
) -> Result<Value, RowsFaultKind>
    requires lawful { IsLawfulType (length catalog.now.collations) ty }
    requires utf8 { IsUtf8 field.now }
    requires below_4_gib { length field.now < 2 ^ 32 }
    ensures value { Gives (field_value catalog.now.collations ty field.now) result }
    ensures of_type { IfOk result (λ value. IsOfType catalog.now.collations ty value) }
{
    if field == NULL {
        return Ok(Value::Null);
    }
    typed_value(alloc, catalog, ty, field)
}

/// A field that isn't NULL.
fn typed_value(
    alloc: Global,
    catalog: &Catalog,
    ty: ColumnType,
    field: &[u8],
) -> Result<Value, RowsFaultKind>
    requires lawful { IsLawfulType (length catalog.now.collations) ty }
    requires utf8 { IsUtf8 field.now }
    requires below_4_gib { length field.now < 2 ^ 32 }
    ensures value { Gives (typed_value catalog.now.collations ty field.now) result }
    ensures of_type { IfOk result (λ value. IsOfType catalog.now.collations ty value) }
{
    match ty {
        ColumnType::BigInt => match bigint_of(field) {
            Some(number) => Ok(Value::Int(number)),
            None => Err(RowsFaultKind::BadInt),
        },
        ColumnType::Char { n, coll } => text_value(
            alloc,
            collation_set(catalog, coll),
            n,
            without_end_spaces(field),
        ),
        ColumnType::VarChar { n, coll } => {
            text_value(alloc, collation_set(catalog, coll), n, field)
        }
        ColumnType::Binary { n } => binary_value(alloc, n, true, field),
        ColumnType::VarBinary { n } => binary_value(alloc, n, false, field),
    }
}

/// A UTF-8 text as a string of a set.
fn text_value(alloc: Global, set: Charset, most: u32, text: &[u8]) -> Result<Value, RowsFaultKind>
    requires utf8 { IsUtf8 text.now }
    requires below_4_gib { length text.now < 2 ^ 32 }
    ensures value { Gives (text_value set most text.now) result }
    ensures of_set { IfOk result (λ value. IsOfSet set most value) }
{
    utf8_law();
    match fit_text(alloc, Charset::Utf8mb4, set, most, text) {
        Ok(kept) => Ok(Value::Str {
            charset: set,
            text: kept,
        }),
        Err(FitFault::Unfit) => Err(RowsFaultKind::Unfit),
        Err(FitFault::TooLong) => Err(RowsFaultKind::TooLong),
        Err(FitFault::NoMemory) => Err(RowsFaultKind::NoMemory),
    }
}

/// The text without the spaces at its end.
#[tactic(auto, using(crate::proofs::Written::space_steps))]
fn without_end_spaces(text: &[u8]) -> &[u8]
    requires { IsUtf8 text.now }
    ensures is { result.now ≡ without_end_spaces text.now }
    ensures utf8 { IsUtf8 result.now }
    ensures shorter { length result.now ≤ length text.now }
{
    let mut len = text.len();
    while len > 0 {
        if text[len - 1] != b' ' {
            return &text[..len];
        }
        len -= 1;
    }
    &text[..0]
}

/// Pairs of hexadecimal digits as a binary string of at most `most` bytes, or of exactly so many
/// where it is padded.
fn binary_value(
    alloc: Global,
    most: u32,
    is_padded: bool,
    field: &[u8],
) -> Result<Value, RowsFaultKind>
    ensures value { Gives (binary_value most (kept_bytes is_padded most) (hex_bytes field.now))
        result }
    ensures of_length { IfOk result (λ value. IsOfLength is_padded most value) }
{
    let Some(bytes) = hex_bytes(alloc, field)? else {
        return Err(RowsFaultKind::BadHex);
    };
    kept_value(most, is_padded, bytes)
}

/// Bytes as a binary string, padded or not.
fn kept_value(most: u32, is_padded: bool, bytes: Text) -> Result<Value, RowsFaultKind>
    ensures value { Gives (binary_value most (kept_bytes is_padded most) (Some bytes)) result }
    ensures of_length { IfOk result (λ value. IsOfLength is_padded most value) }
{
    if bytes.len() > most as usize {
        drop(bytes);
        return Err(RowsFaultKind::TooLong);
    }
    if is_padded {
        return padded_value(most, bytes);
    }
    Ok(binary_string(bytes))
}

/// Bytes padded to a length, as a binary string.
#[tactic(auto, using(crate::proofs::Written::padded_length))]
fn padded_value(len: u32, bytes: Text) -> Result<Value, RowsFaultKind>
    requires { length bytes ≤ len }
    ensures value { Gives (Ok (Str Binary (padded len bytes))) result }
    ensures of_length { IfOk result (λ value. IsOfLength true len value) }
{
    let mut text = bytes;
    match pad_zeros(&mut text, len as usize) {
        Ok(()) => Ok(binary_string(text)),
        Err(NoMemory) => {
            drop(text);
            Err(RowsFaultKind::NoMemory)
        }
    }
}

/// Bytes as a binary string.
fn binary_string(text: Text) -> Value
    ensures is { result ≡ Str Binary text }
    ensures well_formed { IsWellFormed Binary text }
{
    bytes_law(text.as_slice());
    Value::Str {
        charset: Charset::Binary,
        text,
    }
}
