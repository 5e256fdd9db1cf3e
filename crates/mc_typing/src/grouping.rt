ghost use Rattle.mc_ast.specs.declared.expr.Form.TheViews.{out-Form};
ghost use Rattle.mc_typing.specs.Forms.{parts};
ghost use Rattle.mc_typing.specs.Statements.{
  has_aggregate,
  has_no_groups,
  is_grouped,
  own_place,
};
ghost use Rattle.std.specs.List.{list_any};
ghost use Rattle.std.specs.Prelude.{◌≡◌, [], ◌∷◌};

use crate::place::Place;
use crate::places::is_aggregate_form;
use mc_ast::{Expr, Form, Item, OrderItem, Statement};

/// Whether an aggregate stands in an expression.
#[cycle(grouping)]
pub(crate) fn has_aggregate(e: &Expr) -> bool
    ensures { result ≡ has_aggregate e.now }
{
    is_aggregate_form(&e.form) || in_operands(&e.form)
}

/// Whether one of so many tests holds.
fn any_one(test: bool) -> bool
    ensures { result ≡ list_any (λ t. t) (test ∷ []) }
{
    test
}

fn any_two(one: bool, other: bool) -> bool
    ensures { result ≡ list_any (λ t. t) (one ∷ other ∷ []) }
{
    one || other
}

fn any_three(one: bool, two: bool, three: bool) -> bool
    ensures { result ≡ list_any (λ t. t) (one ∷ two ∷ three ∷ []) }
{
    one || two || three
}

/// Whether an aggregate stands in an operand of a form.
#[cycle(grouping)]
fn in_operands(form: &Form) -> bool
    ensures { result ≡ list_any has_aggregate (parts (out-Form form.now)) }
{
    match form {
        Form::Or(es) | Form::And(es) => in_some(es.as_slice()),
        Form::Call { args, .. } => in_some(args.as_slice()),
        Form::Xor(left, right)
        | Form::Compare { left, right, .. }
        | Form::Arith { left, right, .. } => {
            any_two(has_aggregate(left.get()), has_aggregate(right.get()))
        }
        Form::Like { expr, pattern, .. } => {
            any_two(has_aggregate(expr.get()), has_aggregate(pattern.get()))
        }
        Form::In { expr, list, .. } => has_aggregate(expr.get()) || in_some(list.as_slice()),
        Form::Between {
            expr,
            low,
            high,
            ..
        } => any_three(
            has_aggregate(expr.get()),
            has_aggregate(low.get()),
            has_aggregate(high.get()),
        ),
        Form::Trim { removed, text, .. } => match removed {
            Some(removed) => any_two(has_aggregate(removed.get()), has_aggregate(text.get())),
            None => any_one(has_aggregate(text.get())),
        },
        Form::SubstringFrom { expr, start, len } => match len {
            Some(len) => any_three(
                has_aggregate(expr.get()),
                has_aggregate(start.get()),
                has_aggregate(len.get()),
            ),
            None => any_two(has_aggregate(expr.get()), has_aggregate(start.get())),
        },
        Form::Not(expr)
        | Form::IsNull { expr, .. }
        | Form::Neg(expr)
        | Form::Collate { expr, .. }
        | Form::Convert { expr, .. }
        | Form::CastChar { expr, .. }
        | Form::CastBinary(expr)
        | Form::CountDistinct(expr)
        | Form::WeightString { expr, .. } => any_one(has_aggregate(expr.get())),
        Form::Int(_)
        | Form::True
        | Form::False
        | Form::Null
        | Form::Str(_)
        | Form::National(_)
        | Form::Hex(_)
        | Form::IntroStr { .. }
        | Form::IntroHex { .. }
        | Form::Name(_)
        | Form::Qualified { .. }
        | Form::CountAll => false,
    }
}

/// Whether an aggregate stands in one of these expressions.
#[cycle(grouping)]
fn in_some(es: &[Expr]) -> bool
    ensures { result ≡ list_any has_aggregate es.now }
{
    for e in es {
        if has_aggregate(e) {
            return true;
        }
    }
    false
}

/// Whether an aggregate stands in one of these items.
fn in_items(items: &[Item]) -> bool
    ensures { result ≡ list_any (λ item. has_aggregate item.expr) items.now }
{
    for item in items {
        if has_aggregate(&item.expr) {
            return true;
        }
    }
    false
}

/// Whether an aggregate stands in one of these keys.
fn in_orders(orders: &[OrderItem]) -> bool
    ensures { result ≡ list_any (λ o. has_aggregate o.expr) orders.now }
{
    for order in orders {
        if has_aggregate(&order.expr) {
            return true;
        }
    }
    false
}

/// Whether there is no GROUP BY.
fn has_no_groups(groups: &[Expr]) -> bool
    ensures { result ≡ has_no_groups groups.now }
{
    groups.is_empty()
}

/// Whether a statement's rows are grouped: by GROUP BY, or into one group by an aggregate among its
/// items and orders. MySQL 8.0 manual, 12.19.3.
#[tactic(auto, unfolding(crate::specs::Statements::is_grouped))]
pub(crate) fn is_grouped(statement: &Statement) -> bool
    ensures { result ≡ is_grouped statement.now }
{
    !has_no_groups(statement.groups.as_slice())
        || in_items(statement.items.as_slice())
        || in_orders(statement.orders.as_slice())
}

/// Where the items and the orders of a statement stand.
pub(crate) fn own_place(statement: &Statement) -> Place
    ensures { result ≡ own_place statement.now }
{
    if is_grouped(statement) {
        Place::Group
    } else {
        Place::Row
    }
}
