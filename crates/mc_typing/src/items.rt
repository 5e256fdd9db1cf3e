ghost use Rattle.mc_ast.specs.Texts.{HasUtf8};
ghost use Rattle.mc_catalog.specs.Lawful.{IsLawfulType};
ghost use Rattle.mc_typing.specs.Exprs.{plain};
ghost use Rattle.mc_typing.specs.Scope.{IsScope};
ghost use Rattle.mc_typing.specs.Statements.{
  all_items,
  behind,
  is_loose,
  items_count,
  loose_column,
  star_columns,
  star_from,
  star_items,
};
ghost use Rattle.mc_typing.specs.Walk.{with_operands};
ghost use Rattle.mc_typing.specs.Wanted.{IsLeft, IsWanted};
ghost use Rattle.std.specs.List.{AllByRecursion, find};
ghost use Rattle.std.specs.Option.{option_copied};
ghost use Rattle.std.specs.Prelude.{◌≡◌, ◌<◌, ◌^◌, ◌++◌, [], All, OnOk, length, map};

use crate::columns::{column_at, columns_of};
use crate::fault::{TypeFault, refused};
use crate::grouping::own_place;
use crate::likeness::has_name;
use crate::made::put;
use crate::messages::not_grouped;
use crate::place::Place;
use crate::scope::Scope;
use crate::typed::TypedExpr;
use crate::walk::type_expr;
use mc_ast::{Expr, Item, Statement};
use mc_base::{List, NoMemory};
use mc_catalog::{Catalog, ColumnDecl};
use std::alloc::Global;

/// The columns of `*`, where it is there.
#[tactic(auto, using(crate::proofs::Scopes::columns_lawful))]
pub(crate) fn star_columns(c: &Catalog, s: Scope, star: bool) -> &[ColumnDecl]
    requires { IsScope c.now s }
    ensures is { result.now ≡ star_columns c.now s star }
    ensures few { length result.now < 2 ^ 32 }
    ensures types { All (λ column. IsLawfulType (length c.now.collations) column.ty) result.now }
{
    if star { columns_of(c, s) } else { &[] }
}

/// Whether no GROUP BY expression is this column's name.
fn is_loose(groups: &[Expr], column: &ColumnDecl) -> bool
    ensures { result ≡ is_loose groups.now column.now }
{
    !has_name(groups, column.name.as_slice())
}

/// The first column that no GROUP BY expression names.
fn first_loose<'a>(groups: &[Expr], columns: &'a [ColumnDecl]) -> Option<&'a ColumnDecl>
    ensures { option_copied result ≡ find (is_loose groups.now) columns.now }
{
    columns.iter().find(|column| is_loose(groups, column))
}

/// The first column of `*` that no GROUP BY expression names, where rows are grouped.
fn loose_column<'a>(
    place: Place,
    groups: &[Expr],
    columns: &'a [ColumnDecl],
) -> Option<&'a ColumnDecl>
    ensures { option_copied result ≡ loose_column place groups.now columns.now }
{
    match place {
        Place::Group => first_loose(groups, columns),
        Place::Row | Place::Key => None,
    }
}

/// Appends columns as typed expressions, their places counted from 0.
fn put_columns(
    c: &Catalog,
    columns: &[ColumnDecl],
    xs: &mut List<TypedExpr>,
) -> Result<(), NoMemory>
    requires few { length columns.now < 2 ^ 32 }
    requires types { All (λ column. IsLawfulType (length c.now.collations) column.ty) columns.now }
    ensures { OnOk result (xs.new ≡ xs.old ++ star_from c.now 0 columns.now) }
{
    for (i, column) in columns.iter().enumerate() {
        xs.push(column_at(c, i as u32, column))?;
    }
    Ok(())
}

/// Appends the columns of `*`, or refuses the first that has no value in a group.
fn put_star(
    alloc: Global,
    c: &Catalog,
    place: Place,
    groups: &[Expr],
    columns: &[ColumnDecl],
    xs: &mut List<TypedExpr>,
) -> Result<(), TypeFault>
    requires few { length columns.now < 2 ^ 32 }
    requires types { All (λ column. IsLawfulType (length c.now.collations) column.ty) columns.now }
    ensures { IsLeft result xs.new
        (behind xs.old (star_items c.now place groups.now columns.now)) }
{
    match loose_column(place, groups, columns) {
        Some(column) => Err(refused(not_grouped(alloc, column.name.as_slice()))),
        None => Ok(put_columns(c, columns, xs)?),
    }
}

/// Appends typed items, up to the first that is refused.
fn put_items(
    alloc: Global,
    c: &Catalog,
    s: Scope,
    groups: &[Expr],
    place: Place,
    items: &[Item],
    next: &mut u32,
    xs: &mut List<TypedExpr>,
) -> Result<(), TypeFault>
    requires scope { IsScope c.now s }
    requires script { AllByRecursion (λ item. HasUtf8 item.expr) items.now }
    ensures { IsLeft result (xs.new, next.new) (with_operands c.now s groups.now place plain
        xs.old next.old (map (λ item. item.expr) items.now)) }
{
    for item in items {
        let typed = type_expr(&item.expr, alloc, c, s, groups, place, next);
        put(alloc, c, s, None, typed, xs)?;
    }
    Ok(())
}

/// Appends the typed items of a statement, the columns of `*` first.
fn put_all(
    alloc: Global,
    c: &Catalog,
    s: Scope,
    statement: &Statement,
    next: &mut u32,
    xs: &mut List<TypedExpr>,
) -> Result<(), TypeFault>
    requires scope { IsScope c.now s }
    requires script { AllByRecursion (λ item. HasUtf8 item.expr) statement.now.items }
    requires start { next.old ≡ 0 }
    requires empty { xs.old ≡ [] }
    ensures is { IsLeft result xs.new (all_items c.now s statement.now) }
    ensures number { OnOk result (next.new ≡ items_count statement.now) }
{
    let groups = statement.groups.as_slice();
    let place = own_place(statement);
    put_star(
        alloc,
        c,
        place,
        groups,
        star_columns(c, s, statement.star),
        xs,
    )?;
    put_items(
        alloc,
        c,
        s,
        groups,
        place,
        statement.items.as_slice(),
        next,
        xs,
    )
}

/// The typed items of a statement, the columns of `*` first. `next` is moved behind their
/// aggregates, which are numbered from 0.
pub(crate) fn all_items(
    alloc: Global,
    c: &Catalog,
    s: Scope,
    statement: &Statement,
    next: &mut u32,
) -> Result<List<TypedExpr>, TypeFault>
    requires scope { IsScope c.now s }
    requires script { AllByRecursion (λ item. HasUtf8 item.expr) statement.now.items }
    requires start { next.old ≡ 0 }
    ensures is { IsWanted result (all_items c.now s statement.now) }
    ensures number { OnOk result (next.new ≡ items_count statement.now) }
{
    let mut xs = List::new(alloc);
    match put_all(alloc, c, s, statement, next, &mut xs) {
        Ok(_) => Ok(xs),
        Err(fault) => Err(fault),
    }
}
