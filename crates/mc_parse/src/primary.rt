//! The operands themselves.

ghost use Rattle.std.specs.Prelude.{◌≡◌, ℕ, suc, false, IsTrue, MatchOption, IfOk, IfErr};
ghost use Rattle.mc_token.specs.declared.lexeme.Lexeme.TheVariants as lexeme;
ghost use Rattle.mc_token.specs.declared.lexeme.Symbol.TheVariants as sign;
ghost use Rattle.mc_sql.specs.Classes as class;
ghost use Rattle.mc_sql.specs.Rules as rule;
ghost use Rattle.mc_parse.specs.Language.{behind};
ghost use Rattle.mc_parse.specs.Place.{is_missing, are_missing, IsNext};
ghost use Rattle.mc_parse.specs.Primary as spec;
ghost use Rattle.mc_parse.specs.Read.{as_operand, IsFault, IsOperand};

use crate::boxes::instead;
use crate::call::call;
use crate::fault::Fault;
use crate::opening::{begins_call, begins_string, missing_at};
use crate::operand::{Operand, from_to, whole};
use crate::place::Place;
use crate::predicate::or;
use crate::strings::string;
use mc_ast::Form;
use mc_base::{Span, Text};
use mc_token::{Keyword, Symbol};
use std::alloc::Global;

/// Int | TRUE | FALSE | NULL | string | NAME | NAME . NAME | call | ( or )
#[cycle(expr)]
pub(crate) fn prim<'a>(
    alloc: Global,
    below: usize,
    place: Place<'a>,
) -> Result<(Operand, Place<'a>), Fault>
    ensures ok { IfOk result (λ found. IsOperand rule.prim below place.entry.tokens.now
        found.1.tokens.now found.0) }
    ensures err { IfErr result (λ fault. IsFault (behind rule.prim) rule.prim below
        place.entry.tokens.now fault) }
{
    if begins_call(place) {
        return match call(alloc, below, place) {
            Ok((operand, rest)) => Ok((operand, rest)),
            Err(fault) => Err(fault),
        };
    }
    match place.mark(Symbol::LeftParen) {
        Some(inner) => {
            if below == 0 {
                return Err(Fault::TooDeep(place.left()));
            }
            match in_parens(alloc, below - 1, place, inner) {
                Ok((operand, rest)) => Ok((operand, rest)),
                Err(fault) => Err(fault),
            }
        }
        None => match plain(alloc, place) {
            Ok((operand, rest)) => Ok((operand, rest)),
            Err(fault) => Err(fault),
        },
    }
}

/// ( or ) behind the parenthesis that opens, which stands at `start`.
#[cycle(expr)]
fn in_parens<'a>(
    alloc: Global,
    below: usize,
    start: Place<'a>,
    place: Place<'a>,
) -> Result<(Operand, Place<'a>), Fault>
    requires { IsNext (lexeme.Sym sign.LeftParen) start.tokens.now place.tokens.now }
    ensures ok { IfOk result (λ found. IsOperand rule.prim (suc below) start.entry.tokens.now
        found.1.tokens.now found.0) }
    ensures err { IfErr result (λ fault. IsFault (behind rule.prim) rule.prim (suc below)
        start.entry.tokens.now fault) }
{
    match or(alloc, below, false, place) {
        Ok((operand, rest)) => match rest.mark(Symbol::RightParen) {
            Some(behind) => Ok((widened(operand, from_to(start.span(), rest.span())), behind)),
            None => Err(instead(operand, Fault::NoReading(rest.left()))),
        },
        Err(fault) => Err(fault),
    }
}

/// The operand with its parentheses.
fn widened(operand: Operand, extent: Span) -> Operand
    ensures { as_operand result ≡ record { expr = operand.expr; extent = extent } }
{
    Operand {
        expr: operand.expr,
        extent,
    }
}

/// Int | TRUE | FALSE | NULL | string | NAME | NAME . NAME, where no call and no parenthesis is
/// next.
fn plain<'a>(alloc: Global, place: Place<'a>) -> Result<(Operand, Place<'a>), Fault>
    requires no_call { spec.begins_call place.tokens.now ≡ false }
    requires no_paren { IsTrue (is_missing (class.mark sign.LeftParen) place.tokens.now) }
    ensures ok { IfOk result (λ found. (below : ℕ) → IsOperand rule.prim below
        place.entry.tokens.now found.1.tokens.now found.0) }
    ensures err { IfErr result (λ fault. (below : ℕ) → IsFault (behind rule.prim) rule.prim below
        place.entry.tokens.now fault) }
{
    if begins_string(place) {
        return match string(alloc, place) {
            Ok((operand, rest)) => Ok((operand, rest)),
            Err(fault) => Err(fault),
        };
    }
    match literal(place) {
        Some((operand, rest)) => Ok((operand, rest)),
        None => match named(alloc, place) {
            Ok((operand, rest)) => Ok((operand, rest)),
            Err(fault) => Err(fault),
        },
    }
}

/// Int | TRUE | FALSE | NULL, if it is next.
fn literal<'a>(place: Place<'a>) -> Option<(Operand, Place<'a>)>
    ensures { MatchOption result (IsTrue (are_missing spec.plain_literals place.entry.tokens.now))
        (λ found. (below : ℕ) → IsOperand rule.prim below place.entry.tokens.now
        found.1.tokens.now found.0) }
{
    if let Some((number, rest)) = place.int() {
        return Some((whole(place.span(), Form::Int(number)), rest));
    }
    if let Some(rest) = place.keyword(Keyword::True) {
        return Some((whole(place.span(), Form::True), rest));
    }
    if let Some(rest) = place.keyword(Keyword::False) {
        return Some((whole(place.span(), Form::False), rest));
    }
    match place.keyword(Keyword::Null) {
        Some(rest) => Some((whole(place.span(), Form::Null), rest)),
        None => None,
    }
}

/// NAME | NAME . NAME, where nothing else is next.
fn named<'a>(alloc: Global, place: Place<'a>) -> Result<(Operand, Place<'a>), Fault>
    requires no_call { spec.begins_call place.tokens.now ≡ false }
    requires no_paren { IsTrue (is_missing (class.mark sign.LeftParen) place.tokens.now) }
    requires no_string { spec.begins_string place.tokens.now ≡ false }
    requires no_literal { IsTrue (are_missing spec.plain_literals place.tokens.now) }
    ensures ok { IfOk result (λ found. (below : ℕ) → IsOperand rule.prim below
        place.entry.tokens.now found.1.tokens.now found.0) }
    ensures err { IfErr result (λ fault. (below : ℕ) → IsFault (behind rule.prim) rule.prim below
        place.entry.tokens.now fault) }
{
    match place.name() {
        Some((first, behind)) => match behind.mark(Symbol::Dot) {
            Some(dot) => match dot.name() {
                Some((second, rest)) => {
                    let table = Text::from_slice(alloc, first)?;
                    let name = Text::from_slice(alloc, second)?;
                    let span = from_to(place.span(), dot.span());
                    Ok((whole(span, Form::Qualified { table, name }), rest))
                }
                None => Err(Fault::NoReading(dot.left())),
            },
            None => {
                let name = Text::from_slice(alloc, first)?;
                Ok((whole(place.span(), Form::Name(name)), behind))
            }
        },
        None => Err(Fault::NoReading(missing_at(place).left())),
    }
}
