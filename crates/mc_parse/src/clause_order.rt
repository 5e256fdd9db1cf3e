//! ORDER BY.

ghost use Rattle.std.specs.Prelude.{IfOk, IfErr};
ghost use Rattle.mc_sql.specs.Rules as rule;
ghost use Rattle.mc_ast.specs.Values as value;
ghost use Rattle.mc_parse.specs.Clauses.{IsClause, IsClauseFault, HasMore, HasOne};
ghost use Rattle.mc_parse.specs.Language.{behind};

use crate::clauses::NEST_LIMIT;
use crate::fault::Fault;
use crate::place::Place;
use crate::predicate::or;
use mc_ast::OrderItem;
use mc_base::List;
use mc_token::{Keyword, Symbol};
use std::alloc::Global;

/// Whether DESC is next, and the place behind it or ASC.
#[tactic(auto, using(crate::proofs::Options::direction_option_ways))]
fn direction_option(place: Place<'_>) -> (bool, Place<'_>)
    ensures { IsClause rule.direction_option place.entry.tokens.now result.1.tokens.now
        (value.flag result.0) }
{
    match place.keyword(Keyword::Desc) {
        Some(rest) => (true, rest),
        None => match place.keyword(Keyword::Asc) {
            Some(rest) => (false, rest),
            None => (false, place),
        },
    }
}

/// or [ASC | DESC], which is put to the list.
#[tactic(auto, using(crate::proofs::Items::order_read, crate::proofs::Items::order_fault))]
fn push_order<'a>(
    alloc: Global,
    place: Place<'a>,
    orders: &mut List<OrderItem>,
) -> Result<Place<'a>, Fault>
    ensures ok { IfOk result (λ rest. HasOne (behind rule.order) rule.order
        (λ x. value.order_item x) (λ x. x) place.entry.tokens.now rest.tokens.now orders.old
        orders.new) }
    ensures err { IfErr result (λ fault. IsClauseFault rule.order place.entry.tokens.now fault) }
{
    match or(alloc, NEST_LIMIT, false, place) {
        Ok((operand, rest)) => {
            let (desc, rest) = direction_option(rest);
            let order = OrderItem {
                expr: operand.expr,
                desc,
            };
            match orders.push(order) {
                Ok(()) => Ok(rest),
                Err(_) => Err(Fault::NoMemory),
            }
        }
        Err(fault) => Err(fault),
    }
}

/// {, order}
fn more_orders<'a>(
    alloc: Global,
    place: Place<'a>,
    orders: &mut List<OrderItem>,
) -> Result<Place<'a>, Fault>
    ensures ok { IfOk result (λ rest. HasMore rule.more_orders (λ xs. value.order_items xs)
        (λ x. x) place.entry.tokens.now rest.tokens.now orders.old orders.new) }
    ensures err { IfErr result (λ fault. IsClauseFault rule.more_orders place.entry.tokens.now
        fault) }
{
    let mut place = place;
    while let Some(behind) = place.mark(Symbol::Comma) {
        match push_order(alloc, behind, orders) {
            Ok(rest) => place = rest,
            Err(fault) => return Err(fault),
        }
    }
    Ok(place)
}

/// [ORDER BY order {, order}]
#[tactic(auto, using(crate::proofs::Headings::order_option_ways))]
pub(crate) fn order_option<'a>(
    alloc: Global,
    place: Place<'a>,
    orders: &mut List<OrderItem>,
) -> Result<Place<'a>, Fault>
    ensures ok { IfOk result (λ rest. HasMore rule.order_option (λ xs. value.order_items xs)
        (λ x. x) place.entry.tokens.now rest.tokens.now orders.old orders.new) }
    ensures err { IfErr result (λ fault. IsClauseFault rule.order_option place.entry.tokens.now
        fault) }
{
    let Some(by) = place.keyword(Keyword::Order) else {
        return Ok(place);
    };
    let Some(behind) = by.keyword(Keyword::By) else {
        return Err(Fault::NoReading(by.left()));
    };
    match push_order(alloc, behind, orders) {
        Ok(rest) => match more_orders(alloc, rest, orders) {
            Ok(rest) => Ok(rest),
            Err(fault) => Err(fault),
        },
        Err(fault) => Err(fault),
    }
}
