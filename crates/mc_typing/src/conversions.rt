ghost use Rattle.mc_catalog.specs.Lawful.{IsLawful};
ghost use Rattle.mc_catalog.specs.LookUp.{number_of};
ghost use Rattle.mc_typing.specs.Operators.{
  as_text,
  class_after,
  collated,
  collated_as,
  collated_by,
  collated_if,
  converted,
  converted_by_name,
};
ghost use Rattle.mc_charset.specs.declared.charset.Charset.TheVariants.{Binary as SetBinary};
ghost use Rattle.mc_typing.specs.Exprs.{turned, usual_id};
ghost use Rattle.mc_typing.specs.Walk.{cast_char};
ghost use Rattle.mc_typing.specs.Scope.{IsScope, connection_set};
ghost use Rattle.mc_typing.specs.Wanted.{IsWanted};
ghost use Rattle.std.specs.Prelude.{◌≡◌, ◌<◌, IfOk, IfSome, Ok, length, option_map};

use crate::fault::{TypeFault, refused};
use crate::messages::{no_collation, no_set, other_set};
use crate::operands::{
    BINARY, connection_set, is_null, is_number, lesser, of_collation, of_number, text_operand,
    usual,
};
use crate::scope::Scope;
use crate::typed::{Node, Ty, TypedExpr};
use mc_base::{Boxed, NoMemory, Text};
use mc_catalog::{Catalog, collation_set, find_collation};
use mc_charset::{Charset, CollId, charset_by_name, same_set};
use mc_coerce::{EXPLICIT, IMPLICIT, Operand};
use mc_convert::{Repertoire, cap};
use std::alloc::Global;

/// An operand that is a text: of a number, its digits.
pub(crate) fn as_text(
    alloc: Global,
    c: &Catalog,
    s: Scope,
    x: TypedExpr,
) -> Result<TypedExpr, NoMemory>
    requires { IsScope c.now s }
    ensures { IfOk result (λ y. y ≡ as_text c.now s x) }
{
    if !is_number(x.ty) {
        return Ok(x);
    }
    let ty = Ty::Str(of_number(c, s));
    let node = Node::NumberText {
        charset: connection_set(c, s),
        expr: Boxed::new(alloc, x)?,
    };
    Ok(TypedExpr { node, ty })
}

/// An operand that is taken for a text, if it is one of those.
pub(crate) fn turned(
    alloc: Global,
    c: &Catalog,
    s: Scope,
    to_text: bool,
    x: TypedExpr,
) -> Result<TypedExpr, NoMemory>
    requires { IsScope c.now s }
    ensures { IfOk result (λ y. y ≡ turned c.now s to_text x) }
{
    if to_text {
        as_text(alloc, c, s, x)
    } else {
        Ok(x)
    }
}

/// The repertoire of a text that was converted to the set.
fn class_after(set: Charset, a: &Operand) -> Repertoire
    ensures { result ≡ class_after set a.now }
{
    if a.charset == Charset::Binary || set == Charset::Binary {
        cap(set)
    } else {
        lesser(a.repertoire, cap(set))
    }
}

/// A conversion to a set.
pub(crate) fn converted(
    alloc: Global,
    set: Charset,
    id: CollId,
    x: TypedExpr,
) -> Result<TypedExpr, NoMemory>
    ensures { IfOk result (λ y. y ≡ converted set id x) }
{
    let class = class_after(set, &text_operand(x.ty));
    let ty = Ty::Str(of_collation(set, id, IMPLICIT, class));
    let node = Node::Convert {
        to: set,
        expr: Boxed::new(alloc, x)?,
    };
    Ok(TypedExpr { node, ty })
}

/// A conversion to the set of a name.
pub(crate) fn converted_by_name(
    alloc: Global,
    c: &Catalog,
    name: &[u8],
    x: TypedExpr,
) -> Result<TypedExpr, TypeFault>
    requires { IsLawful c.now }
    ensures { IsWanted result (converted_by_name c.now (usual_id c.now) name.now x) }
{
    match charset_by_name(name) {
        Some(set) => Ok(converted(alloc, set, usual(c, set), x)?),
        None => Err(refused(no_set(alloc, name))),
    }
}

/// COLLATE by a collation of the set.
fn collated_as(
    alloc: Global,
    set: Charset,
    id: CollId,
    class: Repertoire,
    x: TypedExpr,
) -> Result<TypedExpr, NoMemory>
    ensures { IfOk result (λ y. y ≡ collated_as set id class x) }
{
    Ok(TypedExpr {
        node: Node::Collate(Boxed::new(alloc, x)?),
        ty: Ty::Str(of_collation(set, id, EXPLICIT, class)),
    })
}

/// COLLATE of a text.
fn collated_if(
    alloc: Global,
    c: &Catalog,
    name: &[u8],
    id: CollId,
    a: &Operand,
    x: TypedExpr,
) -> Result<TypedExpr, TypeFault>
    requires { id.0 < length c.now.collations }
    ensures { IsWanted result (collated_if c.now name.now id a.now x) }
{
    if same_set(collation_set(c, id), a.charset) {
        Ok(collated_as(alloc, a.charset, id, a.repertoire, x)?)
    } else {
        Err(refused(other_set(alloc, name, a.charset)))
    }
}

/// COLLATE by the collation of a number.
fn collated_by(
    alloc: Global,
    c: &Catalog,
    name: &[u8],
    id: CollId,
    x: TypedExpr,
) -> Result<TypedExpr, TypeFault>
    requires { id.0 < length c.now.collations }
    ensures { IsWanted result (collated_by c.now name.now id x) }
{
    if is_null(x.ty) {
        let set = collation_set(c, id);
        Ok(collated_as(alloc, set, id, Repertoire::Ascii, x)?)
    } else {
        let operand = text_operand(x.ty);
        collated_if(alloc, c, name, id, &operand, x)
    }
}

/// The collation of a name.
fn found_collation(c: &Catalog, name: &[u8]) -> Option<CollId>
    requires { IsLawful c.now }
    ensures is { option_map (λ id. id.0) result ≡ number_of c.now.collations name.now }
    ensures within { IfSome result (λ id. id.0 < length c.now.collations) }
{
    find_collation(c, name)
}

/// COLLATE.
pub(crate) fn collated(
    alloc: Global,
    c: &Catalog,
    name: &[u8],
    x: TypedExpr,
) -> Result<TypedExpr, TypeFault>
    requires { IsLawful c.now }
    ensures { IsWanted result (collated c.now name.now x) }
{
    match found_collation(c, name) {
        Some(id) => collated_by(alloc, c, name, id, x),
        None => Err(refused(no_collation(alloc, name))),
    }
}

/// COLLATE of an operand.
pub(crate) fn collate(
    alloc: Global,
    c: &Catalog,
    s: Scope,
    name: &Text,
    x: TypedExpr,
) -> Result<TypedExpr, TypeFault>
    requires { IsScope c.now s }
    ensures { IsWanted result (collated c.now name.now (as_text c.now s x)) }
{
    let x = as_text(alloc, c, s, x)?;
    collated(alloc, c, name.as_slice(), x)
}

/// CONVERT of an operand to the set of a name.
pub(crate) fn convert(
    alloc: Global,
    c: &Catalog,
    s: Scope,
    name: &[u8],
    x: TypedExpr,
) -> Result<TypedExpr, TypeFault>
    requires { IsScope c.now s }
    ensures { IsWanted result
        (converted_by_name c.now (usual_id c.now) name.now (as_text c.now s x)) }
{
    let x = as_text(alloc, c, s, x)?;
    converted_by_name(alloc, c, name, x)
}

/// CAST of an operand to the connection's set.
fn cast_to_connection(
    alloc: Global,
    c: &Catalog,
    s: Scope,
    x: TypedExpr,
) -> Result<TypedExpr, TypeFault>
    requires { IsScope c.now s }
    ensures { IsWanted result
        (Ok (converted (connection_set c.now s) s.connection (as_text c.now s x))) }
{
    let x = as_text(alloc, c, s, x)?;
    Ok(converted(alloc, connection_set(c, s), s.connection, x)?)
}

/// CAST of an operand to bytes.
pub(crate) fn cast_to_bytes(
    alloc: Global,
    c: &Catalog,
    s: Scope,
    x: TypedExpr,
) -> Result<TypedExpr, TypeFault>
    requires { IsScope c.now s }
    ensures { IsWanted result
        (Ok (converted SetBinary (record { 0 = 0 }) (as_text c.now s x))) }
{
    let x = as_text(alloc, c, s, x)?;
    Ok(converted(alloc, Charset::Binary, BINARY, x)?)
}

/// CAST of an operand to characters, of the connection's set where none is named.
pub(crate) fn cast_char(
    alloc: Global,
    c: &Catalog,
    s: Scope,
    set: &Option<Text>,
    x: TypedExpr,
) -> Result<TypedExpr, TypeFault>
    requires { IsScope c.now s }
    ensures { IsWanted result (cast_char c.now s set.now (as_text c.now s x)) }
{
    match set {
        Some(name) => convert(alloc, c, s, name.as_slice(), x),
        None => cast_to_connection(alloc, c, s, x),
    }
}
