//! The words before the items of a statement, and how deep its clauses go. All clauses stand
//! outside parentheses.

ghost use Rattle.mc_sql.specs.Rules as rule;
ghost use Rattle.mc_ast.specs.Values as value;
ghost use Rattle.mc_parse.specs.Clauses.{IsClause};

use crate::place::Place;
use mc_token::Keyword;

/// How many parentheses, NOT and unary minus may stand around a token.
pub(crate) const NEST_LIMIT: usize = 64;

/// Whether EXPLAIN is next, and the place behind it.
#[tactic(auto, using(crate::proofs::Options::explain_read, crate::proofs::Options::explain_left))]
pub(crate) fn explain_option(place: Place<'_>) -> (bool, Place<'_>)
    ensures { IsClause rule.explain_option place.entry.tokens.now result.1.tokens.now
        (value.flag result.0) }
{
    match place.keyword(Keyword::Explain) {
        Some(rest) => (true, rest),
        None => (false, place),
    }
}

/// Whether DISTINCT is next, and the place behind it.
#[tactic(auto, using(crate::proofs::Options::distinct_read, crate::proofs::Options::distinct_left))]
pub(crate) fn distinct_option(place: Place<'_>) -> (bool, Place<'_>)
    ensures { IsClause rule.distinct_option place.entry.tokens.now result.1.tokens.now
        (value.flag result.0) }
{
    match place.keyword(Keyword::Distinct) {
        Some(rest) => (true, rest),
        None => (false, place),
    }
}
