ghost use Rattle.mc_charset.specs.Chars.{IsWellFormed};
ghost use Rattle.mc_charset.specs.declared.charset.Charset.TheVariants.{Binary, Utf8mb4};
ghost use Rattle.mc_convert.specs.Conversion.{converted_text};
ghost use Rattle.mc_catalog.specs.Lawful.{IsLawful};
ghost use Rattle.mc_typing.specs.Literals.{
  hex_string,
  int_const,
  introduced,
  introduced_in,
  national_string,
  null_const,
  plain_string,
  string_of,
  text_value,
  usual_string,
};
ghost use Rattle.mc_typing.specs.Messages.{bad_string};
ghost use Rattle.mc_typing.specs.Scope.{IsScope};
ghost use Rattle.mc_typing.specs.Wanted.{IsWanted};
ghost use Rattle.std.specs.Prelude.{◌≡◌, Err, IfOk, Ok};
ghost use Rattle.std.specs.Str.{IsUtf8};

use crate::fault::{TypeFault, refused};
use crate::messages::{bad_string, no_set};
use crate::operands::{BINARY, connection_set, of_collation, repertoire_in, usual};
use crate::scope::Scope;
use crate::typed::{Node, Ty, TypedExpr};
use mc_base::{NoMemory, Text};
use mc_catalog::Catalog;
use mc_charset::{Charset, CollId, bytes_law, chars_law, charset_by_name, utf8_law};
use mc_coerce::COERCIBLE;
use mc_convert::{convert, reinterpret};
use mc_values::{Value, within_limit};
use std::alloc::Global;

/// A number.
pub(crate) fn int_const(number: i64) -> TypedExpr
    ensures { result ≡ int_const number }
{
    TypedExpr {
        node: Node::Const(Value::Int(number)),
        ty: Ty::Int,
    }
}

/// NULL.
pub(crate) fn null_const() -> TypedExpr
    ensures { result ≡ null_const }
{
    TypedExpr {
        node: Node::Const(Value::Null),
        ty: Ty::Null,
    }
}

/// The value of a string: NULL where it would be too long.
fn text_value(set: Charset, text: Text) -> Value
    requires { IsWellFormed set text }
    ensures { result ≡ text_value set text }
{
    chars_law();
    match within_limit(text) {
        Some(text) => Value::Str { charset: set, text },
        None => Value::Null,
    }
}

/// A string of a collation of the set.
fn string_of(set: Charset, id: CollId, text: Text) -> TypedExpr
    requires { IsWellFormed set text }
    ensures { result ≡ string_of set id text }
{
    let class = repertoire_in(set, text.as_slice());
    TypedExpr {
        node: Node::Const(text_value(set, text)),
        ty: Ty::Str(of_collation(set, id, COERCIBLE, class)),
    }
}

/// The script's characters as a text of the set.
fn script_text(alloc: Global, set: Charset, text: &[u8]) -> Result<Text, NoMemory>
    requires { IsUtf8 text.now }
    ensures is { IfOk result (λ found. found ≡ converted_text Utf8mb4 set text.now) }
    ensures well_formed { IfOk result (λ found. IsWellFormed set found) }
{
    utf8_law();
    convert(alloc, Charset::Utf8mb4, set, text)
}

/// A string with nothing before its quotes.
pub(crate) fn plain_string(
    alloc: Global,
    c: &Catalog,
    s: Scope,
    text: &[u8],
) -> Result<TypedExpr, TypeFault>
    requires scope { IsScope c.now s }
    requires script { IsUtf8 text.now }
    ensures { IsWanted result (Ok (plain_string c.now s text.now)) }
{
    let set = connection_set(c, s);
    Ok(string_of(set, s.connection, script_text(alloc, set, text)?))
}

/// A string behind N.
pub(crate) fn national_string(
    alloc: Global,
    c: &Catalog,
    text: &[u8],
) -> Result<TypedExpr, TypeFault>
    requires lawful { IsLawful c.now }
    requires script { IsUtf8 text.now }
    ensures { IsWanted result (Ok (national_string c.now text.now)) }
{
    let set = Charset::Utf8mb3;
    Ok(string_of(set, usual(c, set), script_text(alloc, set, text)?))
}

/// A hexadecimal literal.
pub(crate) fn hex_string(alloc: Global, bytes: &[u8]) -> Result<TypedExpr, TypeFault>
    ensures { IsWanted result (Ok (hex_string bytes.now)) }
{
    bytes_law(bytes);
    Ok(string_of(Charset::Binary, BINARY, Text::from_slice(alloc, bytes)?))
}

/// Bytes behind an introducer of a set.
fn introduced_in(
    alloc: Global,
    c: &Catalog,
    set: Charset,
    bytes: &[u8],
) -> Result<TypedExpr, TypeFault>
    requires { IsLawful c.now }
    ensures { IsWanted result (introduced_in c.now set (Err (bad_string set)) bytes.now) }
{
    match reinterpret(alloc, set, bytes)? {
        Some(text) => Ok(string_of(set, usual(c, set), text)),
        None => Err(refused(bad_string(alloc, set))),
    }
}

/// Bytes behind an introducer.
pub(crate) fn introduced(
    alloc: Global,
    c: &Catalog,
    name: &[u8],
    bytes: &[u8],
) -> Result<TypedExpr, TypeFault>
    requires { IsLawful c.now }
    ensures { IsWanted result (introduced c.now name.now bytes.now) }
{
    match charset_by_name(name) {
        Some(set) => introduced_in(alloc, c, set, bytes),
        None => Err(refused(no_set(alloc, name))),
    }
}
