//! LIKE, IN and BETWEEN, behind their words.

ghost use Rattle.std.specs.Prelude.{ℕ, List, IfOk, IfErr};
ghost use Rattle.mc_token.specs.declared.lexeme.Token.{Token};
ghost use Rattle.mc_ast.specs.Values.{maybe_text};
ghost use Rattle.mc_sql.specs.Rules as rule;
ghost use Rattle.mc_parse.specs.Language.{behind_at, look_at};
ghost use Rattle.mc_parse.specs.Read.{IsFault, IsOperandAt, IsPut};
ghost use Rattle.mc_parse.specs.Said.{IsMatching, IsEscaping, IsListing, IsRanging};

use crate::boxes::{instead, instead_of_two};
use crate::fault::Fault;
use crate::members::members;
use crate::operand::{Operand, between, from_to, like, member};
use crate::operators::sum;
use crate::place::Place;
use mc_base::{Span, Text};
use mc_token::{Keyword, Symbol};
use std::alloc::Global;

/// sum [NOT] LIKE sum [ESCAPE Str], behind LIKE.
#[cycle(expr)]
pub(crate) fn matched<'a>(
    alloc: Global,
    below: usize,
    alias: bool,
    left: Operand,
    negated: bool,
    place: Place<'a>,
) -> Result<(Operand, Place<'a>), Fault>
    ensures ok { IfOk result (λ found. (tokens : List Token)
        → IsMatching alias below negated tokens place.entry.tokens.now left
        → IsOperandAt alias rule.pred below tokens found.1.tokens.now found.0) }
    ensures err { IfErr result (λ fault. (tokens : List Token)
        → IsMatching alias below negated tokens place.entry.tokens.now left
        → IsFault (behind_at alias rule.pred) rule.pred below tokens fault) }
{
    match sum(alloc, below, place) {
        Ok((pattern, rest)) => match escaped(alloc, alias, left, negated, pattern, rest) {
            Ok((operand, rest)) => Ok((operand, rest)),
            Err(fault) => Err(fault),
        },
        Err(fault) => Err(instead(left, fault)),
    }
}

/// The same, behind the pattern.
fn escaped<'a>(
    alloc: Global,
    alias: bool,
    left: Operand,
    negated: bool,
    pattern: Operand,
    place: Place<'a>,
) -> Result<(Operand, Place<'a>), Fault>
    ensures ok { IfOk result (λ found. (below : ℕ) (tokens : List Token)
        → IsEscaping alias below negated tokens place.entry.tokens.now left pattern
        → IsOperandAt alias rule.pred below tokens found.1.tokens.now found.0) }
    ensures err { IfErr result (λ fault. (below : ℕ) (tokens : List Token)
        → IsEscaping alias below negated tokens place.entry.tokens.now left pattern
        → IsFault (behind_at alias rule.pred) rule.pred below tokens fault) }
{
    match escape_option(alloc, alias, pattern.extent, place) {
        Ok((escape, end, rest)) => Ok((like(alloc, left, negated, pattern, escape, end)?, rest)),
        Err(fault) => Err(instead_of_two(left, pattern, fault)),
    }
}

/// [ESCAPE Str] behind a pattern: its text, and the bytes of the pattern and of the clause. Where
/// an alias may follow, the word without a string behind it is left for a name.
fn escape_option<'a>(
    alloc: Global,
    alias: bool,
    pattern: Span,
    place: Place<'a>,
) -> Result<(Option<Text>, Span, Place<'a>), Fault>
    ensures ok { IfOk result (λ found. (below : ℕ) → IsPut (behind_at alias rule.escape_option)
        (look_at alias found.2.tokens.now) rule.escape_option below place.entry.tokens.now
        found.2.tokens.now (maybe_text found.0) pattern found.1) }
    ensures err { IfErr result (λ fault. (below : ℕ) → IsFault (behind_at alias rule.escape_option)
        rule.escape_option below place.entry.tokens.now fault) }
{
    match place.keyword(Keyword::Escape) {
        Some(behind) => match behind.str() {
            Some((text, rest)) => {
                let escape = Text::from_slice(alloc, text)?;
                Ok((Some(escape), from_to(pattern, behind.span()), rest))
            }
            None => {
                if alias {
                    return Ok((None, pattern, place));
                }
                Err(Fault::NoReading(behind.left()))
            }
        },
        None => Ok((None, pattern, place)),
    }
}

/// sum [NOT] IN ( or {, or} ), behind IN.
#[cycle(expr)]
pub(crate) fn listed<'a>(
    alloc: Global,
    below: usize,
    alias: bool,
    left: Operand,
    negated: bool,
    place: Place<'a>,
) -> Result<(Operand, Place<'a>), Fault>
    ensures ok { IfOk result (λ found. (tokens : List Token)
        → IsListing alias below negated tokens place.entry.tokens.now left
        → IsOperandAt alias rule.pred below tokens found.1.tokens.now found.0) }
    ensures err { IfErr result (λ fault. (tokens : List Token)
        → IsListing alias below negated tokens place.entry.tokens.now left
        → IsFault (behind_at alias rule.pred) rule.pred below tokens fault) }
{
    match place.mark(Symbol::LeftParen) {
        Some(behind) => {
            if below == 0 {
                return Err(instead(left, Fault::TooDeep(place.left())));
            }
            match members(alloc, below - 1, behind) {
                Ok((list, end, rest)) => Ok((member(alloc, left, list, negated, end)?, rest)),
                Err(fault) => Err(instead(left, fault)),
            }
        }
        None => Err(instead(left, Fault::NoReading(place.left()))),
    }
}

/// sum [NOT] BETWEEN sum AND sum, behind BETWEEN.
#[cycle(expr)]
pub(crate) fn ranged<'a>(
    alloc: Global,
    below: usize,
    alias: bool,
    left: Operand,
    negated: bool,
    place: Place<'a>,
) -> Result<(Operand, Place<'a>), Fault>
    ensures ok { IfOk result (λ found. (tokens : List Token)
        → IsRanging alias below negated tokens place.entry.tokens.now left
        → IsOperandAt alias rule.pred below tokens found.1.tokens.now found.0) }
    ensures err { IfErr result (λ fault. (tokens : List Token)
        → IsRanging alias below negated tokens place.entry.tokens.now left
        → IsFault (behind_at alias rule.pred) rule.pred below tokens fault) }
{
    match sum(alloc, below, place) {
        Ok((low, rest)) => match rest.keyword(Keyword::And) {
            Some(behind) => match sum(alloc, below, behind) {
                Ok((high, rest)) => Ok((between(alloc, left, low, high, negated)?, rest)),
                Err(fault) => Err(instead_of_two(left, low, fault)),
            },
            None => Err(instead_of_two(left, low, Fault::NoReading(rest.left()))),
        },
        Err(fault) => Err(instead(left, fault)),
    }
}
