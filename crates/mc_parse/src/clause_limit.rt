//! LIMIT.

ghost use Rattle.std.specs.Prelude.{IfOk, IfErr};
ghost use Rattle.mc_sql.specs.Rules as rule;
ghost use Rattle.mc_ast.specs.Values as value;
ghost use Rattle.mc_parse.specs.Clauses.{IsClause, IsClauseFault, HasOffset};

use crate::fault::Fault;
use crate::place::Place;
use mc_token::{Keyword, Symbol};

/// What stands behind the first number of LIMIT: the rows, the offset first.
#[tactic(auto, using(crate::proofs::Limits::offset_option_ways))]
fn offset_option<'a>(first: u64, place: Place<'a>) -> Result<(u64, u64, Place<'a>), Fault>
    ensures ok { IfOk result (λ found. HasOffset first place.entry.tokens.now found.2.tokens.now
        (found.0, found.1)) }
    ensures err { IfErr result (λ fault. IsClauseFault rule.offset_option place.entry.tokens.now
        fault) }
{
    if let Some(behind) = place.mark(Symbol::Comma) {
        return match behind.int() {
            Some((count, rest)) => Ok((first, count.unsigned_abs(), rest)),
            None => Err(Fault::NoReading(behind.left())),
        };
    }
    match place.keyword(Keyword::Offset) {
        Some(behind) => match behind.int() {
            Some((offset, rest)) => Ok((offset.unsigned_abs(), first, rest)),
            None => Err(Fault::NoReading(behind.left())),
        },
        None => Ok((0, first, place)),
    }
}

/// [LIMIT Int [(, | OFFSET) Int]]
#[tactic(auto, using(crate::proofs::Limits::limit_option_ways))]
pub(crate) fn limit_option<'a>(place: Place<'a>) -> Result<(Option<(u64, u64)>, Place<'a>), Fault>
    ensures ok { IfOk result (λ found. IsClause rule.limit_option place.entry.tokens.now
        found.1.tokens.now (value.limit found.0)) }
    ensures err { IfErr result (λ fault. IsClauseFault rule.limit_option place.entry.tokens.now
        fault) }
{
    let Some(behind) = place.keyword(Keyword::Limit) else {
        return Ok((None, place));
    };
    match behind.int() {
        Some((number, rest)) => match offset_option(number.unsigned_abs(), rest) {
            Ok((offset, count, rest)) => Ok((Some((offset, count)), rest)),
            Err(fault) => Err(fault),
        },
        None => Err(Fault::NoReading(behind.left())),
    }
}
