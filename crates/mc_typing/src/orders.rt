ghost use Rattle.mc_ast.specs.Texts.{HasUtf8};
ghost use Rattle.mc_base.specs.declared.refusal.Refusal.{Refusal};
ghost use Rattle.mc_typing.specs.Scope.{IsScope};
ghost use Rattle.mc_typing.specs.Statements.{
  aliased,
  all_keys,
  is_int,
  item_expr,
  items_count,
  name_alone,
};
ghost use Rattle.mc_typing.specs.Wanted.{IsLeft, IsMade, IsWanted};
ghost use Rattle.mc_typing.specs.Whole.{
  numbered_order,
  numbered_own,
  with_key,
  with_keys,
};
ghost use Rattle.mc_typing.specs.declared.typed.TypedExpr.{TypedExpr};
ghost use Rattle.std.specs.List.{AllByRecursion};
ghost use Rattle.std.specs.Option.{option_copied, option_map_or};
ghost use Rattle.std.specs.Prelude.{◌≡◌, ℕ, [], Result, false};
ghost use Rattle.std.specs.Str.{bytes_eq};

use crate::fault::{TypeFault, refused};
use crate::grouping::own_place;
use crate::messages::wrong_argument;
use crate::place::Place;
use crate::scope::Scope;
use crate::typed::{TypedExpr, TypedOrder};
use crate::walk::type_expr;
use mc_ast::{Expr, Form, Item, OrderItem, Statement};
use mc_base::{List, Text};
use mc_catalog::Catalog;
use std::alloc::Global;

/// The name that an expression is, if it is one alone.
fn name_alone(form: &Form) -> Option<&Text>
    ensures { option_copied result ≡ name_alone form.now }
{
    match form {
        Form::Name(name) => Some(name),
        _ => None,
    }
}

/// Whether the item has this alias.
fn has_alias(item: &Item, name: &[u8]) -> bool
    ensures { result ≡ option_map_or (bytes_eq name.now) item.now.alias false }
{
    match &item.alias {
        Some(alias) => name == alias.as_slice(),
        None => false,
    }
}

/// The first item that has this alias.
fn aliased<'a>(items: &'a [Item], name: &[u8]) -> Option<&'a Item>
    ensures { option_copied result ≡ aliased items.now name.now }
{
    items.iter().find(|item| has_alias(item, name))
}

/// The expression of the item whose alias an order is.
fn item_expr<'a>(items: &'a [Item], e: &Expr) -> Option<&'a Expr>
    ensures { option_copied result ≡ item_expr items.now e.now }
{
    match aliased(items, name_alone(&e.form)?.as_slice()) {
        Some(item) => Some(&item.expr),
        None => None,
    }
}

/// Whether the expression is a number literal.
pub(crate) fn is_int(form: &Form) -> bool
    ensures { result ≡ is_int form.now }
{
    matches!(form, Form::Int(_))
}

/// An order by itself: no number literal.
fn own_order(
    alloc: Global,
    c: &Catalog,
    s: Scope,
    groups: &[Expr],
    place: Place,
    e: &Expr,
    next: &mut u32,
) -> Result<TypedExpr, TypeFault>
    requires scope { IsScope c.now s }
    requires script { HasUtf8 e.now }
    ensures { IsMade result next.new (numbered_own c.now s groups.now place next.old e.now) }
{
    if is_int(&e.form) {
        Err(refused(wrong_argument(alloc, b"order by")))
    } else {
        type_expr(e, alloc, c, s, groups, place, next)
    }
}

/// An order: the item that it names by an alias, else itself.
fn order(
    alloc: Global,
    c: &Catalog,
    s: Scope,
    groups: &[Expr],
    place: Place,
    items: &[Item],
    e: &Expr,
    next: &mut u32,
) -> Result<TypedExpr, TypeFault>
    requires scope { IsScope c.now s }
    requires items { AllByRecursion (λ item. HasUtf8 item.expr) items.now }
    requires script { HasUtf8 e.now }
    ensures { IsMade result next.new
        (numbered_order c.now s groups.now place items.now next.old e.now) }
{
    match item_expr(items, e) {
        Some(item) => type_expr(item, alloc, c, s, groups, place, next),
        None => own_order(alloc, c, s, groups, place, e, next),
    }
}

/// Appends a key of ORDER BY, or passes its refusal on.
fn put_key(
    typed: Result<TypedExpr, TypeFault>,
    desc: bool,
    keys: &mut List<TypedOrder>,
) -> Result<(), TypeFault>
    ensures { (number : ℕ) (t : Result (TypedExpr × ℕ) Refusal) → IsMade typed number t
        → IsLeft result (keys.new, number) (with_key desc keys.old t) }
{
    let expr = typed?;
    keys.push(TypedOrder { expr, desc })?;
    Ok(())
}

/// Appends keys of ORDER BY, up to the first that is refused.
fn put_keys(
    alloc: Global,
    c: &Catalog,
    s: Scope,
    groups: &[Expr],
    place: Place,
    items: &[Item],
    orders: &[OrderItem],
    next: &mut u32,
    keys: &mut List<TypedOrder>,
) -> Result<(), TypeFault>
    requires scope { IsScope c.now s }
    requires items { AllByRecursion (λ item. HasUtf8 item.expr) items.now }
    requires script { AllByRecursion (λ o. HasUtf8 o.expr) orders.now }
    ensures { IsLeft result (keys.new, next.new)
        (with_keys c.now s groups.now place items.now keys.old next.old orders.now) }
{
    for o in orders {
        let typed = order(alloc, c, s, groups, place, items, &o.expr, next);
        put_key(typed, o.desc, keys)?;
    }
    Ok(())
}

/// Appends the keys of a statement, their aggregates numbered behind those of its items.
fn put_all(
    alloc: Global,
    c: &Catalog,
    s: Scope,
    statement: &Statement,
    next: &mut u32,
    keys: &mut List<TypedOrder>,
) -> Result<(), TypeFault>
    requires scope { IsScope c.now s }
    requires items { AllByRecursion (λ item. HasUtf8 item.expr) statement.now.items }
    requires script { AllByRecursion (λ o. HasUtf8 o.expr) statement.now.orders }
    requires start { next.old ≡ items_count statement.now }
    requires empty { keys.old ≡ [] }
    ensures { IsLeft result keys.new (all_keys c.now s statement.now) }
{
    let groups = statement.groups.as_slice();
    let items = statement.items.as_slice();
    let orders = statement.orders.as_slice();
    let place = own_place(statement);
    put_keys(alloc, c, s, groups, place, items, orders, next, keys)
}

/// The keys of ORDER BY, whose aggregates are numbered from `next`, behind those of the items. An
/// alias is looked for among all items, of which a statement has fewer than its tokens.
pub(crate) fn all_keys(
    alloc: Global,
    c: &Catalog,
    s: Scope,
    statement: &Statement,
    next: &mut u32,
) -> Result<List<TypedOrder>, TypeFault>
    requires scope { IsScope c.now s }
    requires items { AllByRecursion (λ item. HasUtf8 item.expr) statement.now.items }
    requires script { AllByRecursion (λ o. HasUtf8 o.expr) statement.now.orders }
    requires start { next.old ≡ items_count statement.now }
    ensures { IsWanted result (all_keys c.now s statement.now) }
{
    let mut keys = List::new(alloc);
    match put_all(alloc, c, s, statement, next, &mut keys) {
        Ok(_) => Ok(keys),
        Err(fault) => Err(fault),
    }
}
