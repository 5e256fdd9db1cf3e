ghost use Rattle.mc_charset.specs.Chars.{IsWellFormed};
ghost use Rattle.mc_catalog.specs.LookUp.{collation_set};
ghost use Rattle.mc_coerce.specs.Operand.{built_in_count};
ghost use Rattle.mc_typing.specs.Operands.{
  IsTextOf,
  IsTyOf,
  is_null,
  is_number,
  is_text,
  lesser,
  of_collation,
  of_null,
  of_number,
  operand_of,
  repertoire_in,
  text_operand,
  usual,
};
ghost use Rattle.mc_typing.specs.Scope.{IsScope, connection_set};
ghost use Rattle.mc_catalog.specs.Lawful.{IsLawful};
ghost use Rattle.std.specs.Prelude.{◌≡◌, ◌<◌, ◌≤◌, length};

use crate::scope::Scope;
use crate::typed::Ty;
use mc_catalog::{Catalog, collation_set, default_of};
use mc_charset::{Charset, CollId, set_names_law};
use mc_coerce::{IGNORABLE, NUMERIC, Operand};
use mc_convert::{Repertoire, repertoire_of};

/// How many collations are built in; their numbers begin at 0.
const BUILT_IN_COUNT: u32 = 9;

/// The number of the collation `binary`.
pub(crate) const BINARY: CollId = CollId(0);

/// The class of all characters of the text.
pub(crate) fn repertoire_in(set: Charset, text: &[u8]) -> Repertoire
    requires { IsWellFormed set text.now }
    ensures { result ≡ repertoire_in set text.now }
{
    repertoire_of(set, text)
}

/// The set's usual collation in the catalog.
pub(crate) fn usual(c: &Catalog, set: Charset) -> CollId
    requires { IsLawful c.now }
    ensures { result.0 ≡ usual c.now set }
{
    set_names_law();
    default_of(c, set)
}

/// An operand of a collation of the set.
pub(crate) fn of_collation(set: Charset, id: CollId, level: u8, class: Repertoire) -> Operand
    ensures { result ≡ of_collation set id level class }
{
    Operand {
        charset: set,
        collation: id,
        bin: id.0 < BUILT_IN_COUNT,
        level,
        repertoire: class,
    }
}

/// The set of the connection.
pub(crate) fn connection_set(c: &Catalog, s: Scope) -> Charset
    requires { IsScope c.now s }
    ensures { result ≡ connection_set c.now s }
{
    collation_set(c, s.connection)
}

/// NULL as an operand.
fn of_null() -> Operand
    ensures { result ≡ of_null }
{
    of_collation(Charset::Binary, BINARY, IGNORABLE, Repertoire::Ascii)
}

/// A number as an operand.
pub(crate) fn of_number(c: &Catalog, s: Scope) -> Operand
    requires { IsScope c.now s }
    ensures { result ≡ of_number c.now s }
{
    of_collation(
        connection_set(c, s),
        s.connection,
        NUMERIC,
        Repertoire::Ascii,
    )
}

/// The operand that an expression of the type is, as CHARSET and its kin show it.
pub(crate) fn operand_of(c: &Catalog, s: Scope, ty: Ty) -> Operand
    requires { IsScope c.now s }
    ensures { result ≡ operand_of c.now s ty }
{
    match ty {
        Ty::Null => of_null(),
        Ty::Int => of_number(c, s),
        Ty::Str(operand) => operand,
    }
}

/// The operand that an expression of the type is to its operation.
pub(crate) fn text_operand(ty: Ty) -> Operand
    ensures { result ≡ text_operand ty }
{
    match ty {
        Ty::Str(operand) => operand,
        Ty::Null | Ty::Int => of_null(),
    }
}

pub(crate) fn is_null(ty: Ty) -> bool
    ensures { result ≡ is_null ty }
{
    matches!(ty, Ty::Null)
}

pub(crate) fn is_number(ty: Ty) -> bool
    ensures { result ≡ is_number ty }
{
    matches!(ty, Ty::Int)
}

pub(crate) fn is_text(ty: Ty) -> bool
    ensures { result ≡ is_text ty }
{
    matches!(ty, Ty::Str(_))
}

/// The lesser class of the two in the chain.
pub(crate) fn lesser(class: Repertoire, other: Repertoire) -> Repertoire
    ensures { result ≡ lesser class other }
{
    if class.is_at_most(other) {
        class
    } else {
        other
    }
}
