ghost use Rattle.mc_catalog.specs.Lawful.{IsLawful, IsLawfulType};
ghost use Rattle.mc_typing.specs.Columns.{
  column,
  column_at,
  column_named,
  column_of_table,
  column_ty,
  is_table,
  place_of,
  text_column,
};
ghost use Rattle.mc_typing.specs.Exprs.{Typing};
ghost use Rattle.mc_typing.specs.Places.{column_in};
ghost use Rattle.mc_typing.specs.Scope.{IsScope, columns_of, table_of};
ghost use Rattle.mc_typing.specs.Wanted.{IsWanted};
ghost use Rattle.std.specs.Prelude.{◌≡◌, ◌<◌, ◌^◌, All, IfSome, length};

use crate::fault::{TypeFault, refused};
use crate::messages::{no_column, not_grouped};
use crate::operands::{BINARY, of_collation};
use crate::place::Place;
use crate::scope::Scope;
use crate::typed::{Node, Ty, TypedExpr};
use mc_catalog::{Catalog, ColumnDecl, ColumnType, TableDecl, collation_set};
use mc_charset::{Charset, CollId};
use mc_coerce::IMPLICIT;
use mc_convert::cap;
use std::alloc::Global;

/// The columns that names may stand for.
pub(crate) fn columns_of(c: &Catalog, s: Scope) -> &[ColumnDecl]
    requires { IsScope c.now s }
    ensures { result.now ≡ columns_of c.now s }
{
    match s.table {
        Some(place) => c.tables.as_slice()[place as usize].columns.as_slice(),
        None => &[],
    }
}

/// Whether the statement's table has this name.
fn is_table(c: &Catalog, s: Scope, name: &[u8]) -> bool
    requires { IsScope c.now s }
    ensures { result ≡ is_table c.now s name.now }
{
    match s.table {
        Some(place) => c.tables.as_slice()[place as usize].name.as_slice() == name,
        None => false,
    }
}

/// The type of a text column.
fn text_column(c: &Catalog, id: CollId) -> Ty
    requires { id.0 < length c.now.collations }
    ensures { result ≡ text_column c.now id }
{
    let set = collation_set(c, id);
    Ty::Str(of_collation(set, id, IMPLICIT, cap(set)))
}

/// The type of a column.
fn column_ty(c: &Catalog, ty: ColumnType) -> Ty
    requires { IsLawfulType (length c.now.collations) ty }
    ensures { result ≡ column_ty c.now ty }
{
    match ty {
        ColumnType::BigInt => Ty::Int,
        ColumnType::Char { coll, .. } | ColumnType::VarChar { coll, .. } => text_column(c, coll),
        ColumnType::Binary { .. } | ColumnType::VarBinary { .. } => {
            let set = Charset::Binary;
            Ty::Str(of_collation(set, BINARY, IMPLICIT, cap(set)))
        }
    }
}

/// The column at a place.
pub(crate) fn column_at(c: &Catalog, place: u32, column: &ColumnDecl) -> TypedExpr
    requires { IsLawfulType (length c.now.collations) column.now.ty }
    ensures { result ≡ column_at c.now place column.now }
{
    TypedExpr {
        node: Node::Column(place),
        ty: column_ty(c, column.ty),
    }
}

/// The place of the first column of this name.
fn place_of(columns: &[ColumnDecl], name: &[u8]) -> Option<usize>
    ensures place { result ≡ place_of columns.now name.now }
    ensures within { IfSome result (λ i. i < length columns.now) }
{
    columns
        .iter()
        .position(|column| column.name.as_slice() == name)
}

/// The column of a name among these.
fn column_named(
    alloc: Global,
    c: &Catalog,
    columns: &[ColumnDecl],
    name: &[u8],
) -> Result<TypedExpr, TypeFault>
    requires few { length columns.now < 2 ^ 32 }
    requires types { All (λ column. IsLawfulType (length c.now.collations) column.ty) columns.now }
    ensures { IsWanted result (column_named c.now columns.now name.now) }
{
    match place_of(columns, name) {
        Some(place) => Ok(column_at(c, place as u32, &columns[place])),
        None => Err(refused(no_column(alloc, name))),
    }
}

/// The column of a name.
#[tactic(auto, using(crate::proofs::Scopes::columns_lawful))]
pub(crate) fn column(
    alloc: Global,
    c: &Catalog,
    s: Scope,
    name: &[u8],
) -> Result<TypedExpr, TypeFault>
    requires { IsScope c.now s }
    ensures { IsWanted result (column c.now s name.now) }
{
    column_named(alloc, c, columns_of(c, s), name)
}

/// The column of a name with its table.
pub(crate) fn column_of_table(
    alloc: Global,
    c: &Catalog,
    s: Scope,
    table: &[u8],
    name: &[u8],
) -> Result<TypedExpr, TypeFault>
    requires { IsScope c.now s }
    ensures { IsWanted result (column_of_table c.now s table.now name.now) }
{
    if is_table(c, s, table) {
        column(alloc, c, s, name)
    } else {
        Err(refused(no_column(alloc, name)))
    }
}

/// A column, where it stands: in a group it has no value, once it is known at all.
pub(crate) fn column_in(
    alloc: Global,
    place: Place,
    name: &[u8],
    typed: Result<TypedExpr, TypeFault>,
) -> Result<TypedExpr, TypeFault>
    ensures { (t : Typing) → IsWanted typed t → IsWanted result (column_in place name.now t) }
{
    match place {
        Place::Group => {
            typed?;
            Err(refused(not_grouped(alloc, name)))
        }
        Place::Row | Place::Key => typed,
    }
}
