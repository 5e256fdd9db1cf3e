//! The operators on values, from COLLATE to sums, one function for each rule.

ghost use Rattle.std.specs.Prelude.{ℕ, IsTrue, MatchOption, IfOk, IfErr};
ghost use Rattle.mc_ast.specs.Grouping.{grouped, under};
ghost use Rattle.mc_ast.specs.Values.{operations, collation, collations};
ghost use Rattle.mc_sql.specs.Rules as rule;
ghost use Rattle.mc_parse.specs.Language.{behind};
ghost use Rattle.mc_parse.specs.Read.{as_operand, IsRead, IsFault, IsOperand, IsFolded};
ghost use Rattle.mc_parse.specs.Place.{are_missing};
ghost use Rattle.mc_parse.specs.Signs.{factor_signs, summand_signs, IsFactorSign, IsSummandSign};

use crate::boxes::instead;
use crate::fault::Fault;
use crate::operand::{Operand, arith, collated, negative};
use crate::place::Place;
use crate::primary::prim;
use mc_ast::ArithOp;
use mc_base::{Span, Text};
use mc_token::{Keyword, Symbol};
use std::alloc::Global;

/// NAME or BINARY: a name in lower case, and where it stands.
pub(crate) fn name_or_binary<'a>(
    alloc: Global,
    place: Place<'a>,
) -> Result<(Text, Span, Place<'a>), Fault>
    ensures ok { IfOk result (λ found. (below : ℕ) → IsRead (behind rule.name_or_binary) 1
        rule.name_or_binary below place.entry.tokens.now found.2.tokens.now
        (collation (record { name = found.0; extent = found.1 })) found.1) }
    ensures err { IfErr result (λ fault. (below : ℕ) → IsFault (behind rule.name_or_binary)
        rule.name_or_binary below place.entry.tokens.now fault) }
{
    let span = place.span();
    if let Some((name, rest)) = place.name() {
        return Ok((Text::from_slice(alloc, name)?, span, rest));
    }
    if let Some(rest) = place.keyword(Keyword::Binary) {
        return Ok((Text::from_slice(alloc, b"binary")?, span, rest));
    }
    Err(Fault::NoReading(place.left()))
}

/// {COLLATE (NAME | BINARY)}
fn more_collates<'a>(
    alloc: Global,
    first: Operand,
    place: Place<'a>,
) -> Result<(Operand, Place<'a>), Fault>
    ensures ok { IfOk result (λ found. (below : ℕ) → IsFolded (behind rule.more_collates) 1
        rule.more_collates collations under below place.entry.tokens.now found.1.tokens.now
        (as_operand first) (as_operand found.0)) }
    ensures err { IfErr result (λ fault. (below : ℕ) → IsFault (behind rule.more_collates)
        rule.more_collates below place.entry.tokens.now fault) }
{
    let mut operand = first;
    let mut place = place;
    while let Some(behind) = place.keyword(Keyword::Collate) {
        match name_or_binary(alloc, behind) {
            Ok((name, extent, rest)) => {
                operand = collated(alloc, operand, name, extent)?;
                place = rest;
            }
            Err(fault) => return Err(instead(operand, fault)),
        }
    }
    Ok((operand, place))
}

/// prim {COLLATE (NAME | BINARY)}
#[cycle(expr)]
fn coll<'a>(alloc: Global, below: usize, place: Place<'a>) -> Result<(Operand, Place<'a>), Fault>
    ensures ok { IfOk result (λ found. IsOperand rule.coll below place.entry.tokens.now
        found.1.tokens.now found.0) }
    ensures err { IfErr result (λ fault. IsFault (behind rule.coll) rule.coll below
        place.entry.tokens.now fault) }
{
    match prim(alloc, below, place) {
        Ok((operand, rest)) => match more_collates(alloc, operand, rest) {
            Ok((operand, rest)) => Ok((operand, rest)),
            Err(fault) => Err(fault),
        },
        Err(fault) => Err(fault),
    }
}

/// - neg | coll
#[cycle(expr)]
fn neg<'a>(alloc: Global, below: usize, place: Place<'a>) -> Result<(Operand, Place<'a>), Fault>
    ensures ok { IfOk result (λ found. IsOperand rule.neg below place.entry.tokens.now
        found.1.tokens.now found.0) }
    ensures err { IfErr result (λ fault. IsFault (behind rule.neg) rule.neg below
        place.entry.tokens.now fault) }
{
    match place.mark(Symbol::Minus) {
        Some(behind) => {
            if below == 0 {
                return Err(Fault::TooDeep(place.left()));
            }
            match neg(alloc, below - 1, behind) {
                Ok((operand, rest)) => Ok((negative(alloc, place.span(), operand)?, rest)),
                Err(fault) => Err(fault),
            }
        }
        None => match coll(alloc, below, place) {
            Ok((operand, rest)) => Ok((operand, rest)),
            Err(fault) => Err(fault),
        },
    }
}

/// An operator between factors, if it is next, and the place behind it.
fn factor_sign<'a>(place: Place<'a>) -> Option<(ArithOp, Place<'a>)>
    ensures { MatchOption result (IsTrue (are_missing factor_signs place.entry.tokens.now))
        (λ found. IsFactorSign found.0 place.entry.tokens.now found.1.tokens.now) }
{
    if let Some(behind) = place.mark(Symbol::Star) {
        return Some((ArithOp::Mul, behind));
    }
    if let Some(behind) = place.keyword(Keyword::Div) {
        return Some((ArithOp::Div, behind));
    }
    if let Some(behind) = place.mark(Symbol::Percent) {
        return Some((ArithOp::Mod, behind));
    }
    match place.keyword(Keyword::Mod) {
        Some(behind) => Some((ArithOp::Mod, behind)),
        None => None,
    }
}

/// {(* | DIV | % | MOD) neg}
#[cycle(expr)]
fn more_negs<'a>(
    alloc: Global,
    below: usize,
    first: Operand,
    place: Place<'a>,
) -> Result<(Operand, Place<'a>), Fault>
    ensures ok { IfOk result (λ found. IsFolded (behind rule.more_negs) 1 rule.more_negs operations
        grouped below place.entry.tokens.now found.1.tokens.now (as_operand first)
        (as_operand found.0)) }
    ensures err { IfErr result (λ fault. IsFault (behind rule.more_negs) rule.more_negs below
        place.entry.tokens.now fault) }
{
    let mut operand = first;
    let mut place = place;
    while let Some((op, behind)) = factor_sign(place) {
        match neg(alloc, below, behind) {
            Ok((right, rest)) => {
                operand = arith(alloc, op, operand, right)?;
                place = rest;
            }
            Err(fault) => return Err(instead(operand, fault)),
        }
    }
    Ok((operand, place))
}

/// neg {(* | DIV | % | MOD) neg}
#[cycle(expr)]
fn prod<'a>(alloc: Global, below: usize, place: Place<'a>) -> Result<(Operand, Place<'a>), Fault>
    ensures ok { IfOk result (λ found. IsOperand rule.prod below place.entry.tokens.now
        found.1.tokens.now found.0) }
    ensures err { IfErr result (λ fault. IsFault (behind rule.prod) rule.prod below
        place.entry.tokens.now fault) }
{
    match neg(alloc, below, place) {
        Ok((operand, rest)) => match more_negs(alloc, below, operand, rest) {
            Ok((operand, rest)) => Ok((operand, rest)),
            Err(fault) => Err(fault),
        },
        Err(fault) => Err(fault),
    }
}

/// An operator between summands, if it is next, and the place behind it.
fn summand_sign<'a>(place: Place<'a>) -> Option<(ArithOp, Place<'a>)>
    ensures { MatchOption result (IsTrue (are_missing summand_signs place.entry.tokens.now))
        (λ found. IsSummandSign found.0 place.entry.tokens.now found.1.tokens.now) }
{
    if let Some(behind) = place.mark(Symbol::Plus) {
        return Some((ArithOp::Add, behind));
    }
    match place.mark(Symbol::Minus) {
        Some(behind) => Some((ArithOp::Sub, behind)),
        None => None,
    }
}

/// {(+ | -) prod}
#[cycle(expr)]
fn more_prods<'a>(
    alloc: Global,
    below: usize,
    first: Operand,
    place: Place<'a>,
) -> Result<(Operand, Place<'a>), Fault>
    ensures ok { IfOk result (λ found. IsFolded (behind rule.more_prods) 1 rule.more_prods
        operations grouped below place.entry.tokens.now found.1.tokens.now (as_operand first)
        (as_operand found.0)) }
    ensures err { IfErr result (λ fault. IsFault (behind rule.more_prods) rule.more_prods below
        place.entry.tokens.now fault) }
{
    let mut operand = first;
    let mut place = place;
    while let Some((op, behind)) = summand_sign(place) {
        match prod(alloc, below, behind) {
            Ok((right, rest)) => {
                operand = arith(alloc, op, operand, right)?;
                place = rest;
            }
            Err(fault) => return Err(instead(operand, fault)),
        }
    }
    Ok((operand, place))
}

/// prod {(+ | -) prod}
#[cycle(expr)]
pub(crate) fn sum<'a>(
    alloc: Global,
    below: usize,
    place: Place<'a>,
) -> Result<(Operand, Place<'a>), Fault>
    ensures ok { IfOk result (λ found. IsOperand rule.sum below place.entry.tokens.now
        found.1.tokens.now found.0) }
    ensures err { IfErr result (λ fault. IsFault (behind rule.sum) rule.sum below
        place.entry.tokens.now fault) }
{
    match prod(alloc, below, place) {
        Ok((operand, rest)) => match more_prods(alloc, below, operand, rest) {
            Ok((operand, rest)) => Ok((operand, rest)),
            Err(fault) => Err(fault),
        },
        Err(fault) => Err(fault),
    }
}
