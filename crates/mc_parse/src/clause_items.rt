//! The items of a statement, with their aliases.

ghost use Rattle.std.specs.Prelude.{Some, None, IfOk, IfErr, MatchOption};
ghost use Rattle.mc_sql.specs.Rules as rule;
ghost use Rattle.mc_ast.specs.Values as value;
ghost use Rattle.mc_parse.specs.Clauses.{
  IsClauseFault,
  HasMore,
  HasOne,
  HasAlias,
  IsAliasFault,
  HasItem,
};
ghost use Rattle.mc_parse.specs.Language.{behind};

use crate::boxes::instead;
use crate::clauses::NEST_LIMIT;
use crate::fault::Fault;
use crate::operand::Operand;
use crate::place::Place;
use crate::predicate::or;
use mc_ast::Item;
use mc_base::{List, Text};
use mc_token::{Keyword, Symbol};
use std::alloc::Global;

/// [[AS] NAME]
#[tactic(auto, using(crate::proofs::Items::alias_option_ways))]
fn alias_option<'a>(place: Place<'a>) -> Result<(Option<&'a [u8]>, Place<'a>), Fault>
    ensures ok { IfOk result (λ found. MatchOption found.0
        (HasAlias place.entry.tokens.now found.1.tokens.now None)
        (λ text. HasAlias place.entry.tokens.now found.1.tokens.now (Some text.now))) }
    ensures err { IfErr result (λ fault. IsAliasFault place.entry.tokens.now fault) }
{
    if let Some(behind) = place.keyword(Keyword::As) {
        return match behind.name() {
            Some((name, rest)) => Ok((Some(name), rest)),
            None => Err(Fault::NoReading(behind.left())),
        };
    }
    match place.name() {
        Some((name, rest)) => Ok((Some(name), rest)),
        None => Ok((None, place)),
    }
}

/// The item of an operand and the alias that may stand behind it.
fn with_alias<'a>(
    alloc: Global,
    operand: Operand,
    place: Place<'a>,
) -> Result<(Item, Place<'a>), Fault>
    ensures ok { IfOk result (λ found. HasItem operand place.entry.tokens.now found.1.tokens.now
        found.0) }
    ensures err { IfErr result (λ fault. IsAliasFault place.entry.tokens.now fault) }
{
    let span = operand.extent;
    match alias_option(place) {
        Ok((Some(name), rest)) => match Text::from_slice(alloc, name) {
            Ok(alias) => {
                let alias = Some(alias);
                let expr = operand.expr;
                Ok((Item { expr, alias, span }, rest))
            }
            Err(_) => Err(instead(operand, Fault::NoMemory)),
        },
        Ok((None, rest)) => {
            let alias = None;
            let expr = operand.expr;
            Ok((Item { expr, alias, span }, rest))
        }
        Err(fault) => Err(instead(operand, fault)),
    }
}

/// or [[AS] NAME], which is put to the list.
#[tactic(auto, using(crate::proofs::Items::push_item_ways))]
pub(crate) fn push_item<'a>(
    alloc: Global,
    place: Place<'a>,
    items: &mut List<Item>,
) -> Result<Place<'a>, Fault>
    ensures ok { IfOk result (λ rest. HasOne (behind rule.item) rule.item (λ x. value.item x)
        (λ x. x) place.entry.tokens.now rest.tokens.now items.old items.new) }
    ensures err { IfErr result (λ fault. IsClauseFault rule.item place.entry.tokens.now fault) }
{
    match or(alloc, NEST_LIMIT, true, place) {
        Ok((operand, rest)) => match with_alias(alloc, operand, rest) {
            Ok((item, rest)) => match items.push(item) {
                Ok(()) => Ok(rest),
                Err(_) => Err(Fault::NoMemory),
            },
            Err(fault) => Err(fault),
        },
        Err(fault) => Err(fault),
    }
}

/// {, item}
pub(crate) fn more_items<'a>(
    alloc: Global,
    place: Place<'a>,
    items: &mut List<Item>,
) -> Result<Place<'a>, Fault>
    ensures ok { IfOk result (λ rest. HasMore rule.more_items (λ xs. value.items xs) (λ x. x)
        place.entry.tokens.now rest.tokens.now items.old items.new) }
    ensures err { IfErr result (λ fault. IsClauseFault rule.more_items place.entry.tokens.now
        fault) }
{
    let mut place = place;
    while let Some(behind) = place.mark(Symbol::Comma) {
        match push_item(alloc, behind, items) {
            Ok(rest) => place = rest,
            Err(fault) => return Err(fault),
        }
    }
    Ok(place)
}
