//! FROM, and the clauses that may stand behind it alone: WHERE and GROUP BY.

ghost use Rattle.std.specs.Prelude.{IfOk, IfErr};
ghost use Rattle.mc_sql.specs.Rules as rule;
ghost use Rattle.mc_ast.specs.Values as value;
ghost use Rattle.mc_parse.specs.Clauses.{IsClauseFault, HasMore, HasFilter, HasSource, source_of};

use crate::arguments::{more_ors, push_or};
use crate::boxes::put;
use crate::clauses::NEST_LIMIT;
use crate::fault::Fault;
use crate::place::Place;
use crate::predicate::or;
use mc_ast::{Expr, Statement};
use mc_base::{List, Text};
use mc_token::Keyword;
use std::alloc::Global;

/// [GROUP BY or {, or}]
#[tactic(auto, using(crate::proofs::Headings::group_option_ways))]
fn group_option<'a>(
    alloc: Global,
    place: Place<'a>,
    groups: &mut List<Expr>,
) -> Result<Place<'a>, Fault>
    ensures ok { IfOk result (λ rest. HasMore rule.group_option (λ xs. value.operands xs)
        (λ x. x.expr) place.entry.tokens.now rest.tokens.now groups.old groups.new) }
    ensures err { IfErr result (λ fault. IsClauseFault rule.group_option place.entry.tokens.now
        fault) }
{
    let Some(by) = place.keyword(Keyword::Group) else {
        return Ok(place);
    };
    let Some(behind) = by.keyword(Keyword::By) else {
        return Err(Fault::NoReading(by.left()));
    };
    match push_or(alloc, NEST_LIMIT, groups, behind) {
        Ok(rest) => match more_ors(alloc, NEST_LIMIT, groups, rest) {
            Ok(rest) => Ok(rest),
            Err(fault) => Err(fault),
        },
        Err(fault) => Err(fault),
    }
}

/// [WHERE or]
#[tactic(auto, using(crate::proofs::Sources::where_option_ways))]
fn where_option<'a>(alloc: Global, place: Place<'a>) -> Result<(Option<Expr>, Place<'a>), Fault>
    ensures ok { IfOk result (λ found. HasFilter place.entry.tokens.now found.1.tokens.now
        found.0) }
    ensures err { IfErr result (λ fault. IsClauseFault rule.where_option place.entry.tokens.now
        fault) }
{
    match place.keyword(Keyword::Where) {
        Some(behind) => match or(alloc, NEST_LIMIT, false, behind) {
            Ok((operand, rest)) => Ok((Some(operand.expr), rest)),
            Err(fault) => Err(fault),
        },
        None => Ok((None, place)),
    }
}

/// FROM NAME [WHERE or] [GROUP BY or {, or}], which are put to the statement.
#[tactic(auto, using(crate::proofs::Sources::source_ways))]
fn source<'a>(alloc: Global, place: Place<'a>, tree: &mut Statement) -> Result<Place<'a>, Fault>
    ensures ok { IfOk result (λ rest. HasSource rule.source place.entry.tokens.now rest.tokens.now
        tree.old tree.new) }
    ensures err { IfErr result (λ fault. IsClauseFault rule.source place.entry.tokens.now fault) }
{
    let Some(behind) = place.keyword(Keyword::From) else {
        return Err(Fault::NoReading(place.left()));
    };
    let Some((name, rest)) = behind.name() else {
        return Err(Fault::NoReading(behind.left()));
    };
    put(&mut tree.table, Some(Text::from_slice(alloc, name)?));
    match where_option(alloc, rest) {
        Ok((filter, rest)) => {
            put(&mut tree.filter, filter);
            match group_option(alloc, rest, &mut tree.groups) {
                Ok(rest) => Ok(rest),
                Err(fault) => Err(fault),
            }
        }
        Err(fault) => Err(fault),
    }
}

/// FROM and what stands behind it, which has to be there behind `*`.
#[tactic(auto, using(crate::proofs::Sources::source_option_ways))]
pub(crate) fn source_option<'a>(
    alloc: Global,
    star: bool,
    place: Place<'a>,
    tree: &mut Statement,
) -> Result<Place<'a>, Fault>
    ensures ok { IfOk result (λ rest. HasSource (source_of star) place.entry.tokens.now
        rest.tokens.now tree.old tree.new) }
    ensures err { IfErr result (λ fault. IsClauseFault (source_of star) place.entry.tokens.now
        fault) }
{
    if star {
        return source(alloc, place, tree);
    }
    match place.keyword(Keyword::From) {
        Some(_) => match source(alloc, place, tree) {
            Ok(rest) => Ok(rest),
            Err(fault) => Err(fault),
        },
        None => Ok(place),
    }
}
