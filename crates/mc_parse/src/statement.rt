//! A statement.

ghost use Rattle.std.specs.Prelude.{◌≡◌, IfOk, IfErr};
ghost use Rattle.mc_sql.specs.Rules as rule;
ghost use Rattle.mc_ast.specs.Values as value;
ghost use Rattle.mc_parse.specs.Clauses.{
  IsClause,
  IsClauseFault,
  ReadsItems,
  FailsItems,
  ReadsOn,
  FailsOn,
  blank,
};

use crate::boxes::instead;
use crate::clause_from::source_option;
use crate::clause_items::{more_items, push_item};
use crate::clause_limit::limit_option;
use crate::clause_order::order_option;
use crate::clauses::{distinct_option, explain_option};
use crate::fault::Fault;
use crate::place::Place;
use mc_ast::Statement;
use mc_base::List;
use mc_token::{Keyword, Symbol};
use std::alloc::Global;

/// A statement without clauses.
fn blank(alloc: Global, explain: bool, distinct: bool) -> Statement
    ensures { result ≡ blank explain distinct }
{
    Statement {
        explain,
        distinct,
        star: false,
        items: List::new(alloc),
        table: None,
        filter: None,
        groups: List::new(alloc),
        orders: List::new(alloc),
        limit: None,
    }
}

/// What stands behind the `*` or the first item.
#[tactic(auto, using(crate::proofs::Statements::clauses_ways))]
fn clauses<'a>(
    alloc: Global,
    star: bool,
    place: Place<'a>,
    tree: &mut Statement,
) -> Result<Place<'a>, Fault>
    ensures ok { IfOk result (λ rest. ReadsOn star place.entry.tokens.now rest.tokens.now tree.old
        tree.new) }
    ensures err { IfErr result (λ fault. FailsOn star place.entry.tokens.now fault) }
{
    let behind = more_items(alloc, place, &mut tree.items)?;
    let behind = source_option(alloc, star, behind, tree)?;
    let behind = order_option(alloc, behind, &mut tree.orders)?;
    let (limit, behind) = limit_option(behind)?;
    tree.limit = limit;
    Ok(behind)
}

/// `*` or an item, and all behind it.
#[tactic(auto, using(crate::proofs::Statements::items_ways))]
fn items<'a>(alloc: Global, place: Place<'a>, tree: &mut Statement) -> Result<Place<'a>, Fault>
    ensures ok { IfOk result (λ rest. ReadsItems place.entry.tokens.now rest.tokens.now tree.old
        tree.new) }
    ensures err { IfErr result (λ fault. FailsItems place.entry.tokens.now fault) }
{
    match place.mark(Symbol::Star) {
        Some(behind) => {
            tree.star = true;
            match clauses(alloc, true, behind, tree) {
                Ok(rest) => Ok(rest),
                Err(fault) => Err(fault),
            }
        }
        None => match push_item(alloc, place, &mut tree.items) {
            Ok(behind) => match clauses(alloc, false, behind, tree) {
                Ok(rest) => Ok(rest),
                Err(fault) => Err(fault),
            },
            Err(fault) => Err(fault),
        },
    }
}

/// [EXPLAIN] SELECT [DISTINCT] and all behind it.
#[tactic(auto, using(crate::proofs::Statements::statement_ways))]
pub(crate) fn statement<'a>(
    alloc: Global,
    place: Place<'a>,
) -> Result<(Statement, Place<'a>), Fault>
    ensures ok { IfOk result (λ found. IsClause rule.statement place.entry.tokens.now
        found.1.tokens.now (value.a_statement found.0)) }
    ensures err { IfErr result (λ fault. IsClauseFault rule.statement place.entry.tokens.now
        fault) }
{
    let (explain, select) = explain_option(place);
    let Some(behind) = select.keyword(Keyword::Select) else {
        return Err(Fault::NoReading(select.left()));
    };
    let (distinct, behind) = distinct_option(behind);
    let mut tree = blank(alloc, explain, distinct);
    match items(alloc, behind, &mut tree) {
        Ok(rest) => Ok((tree, rest)),
        Err(fault) => Err(instead(tree, fault)),
    }
}
