//! The operators on truth, from OR to NOT, one function for each rule.
//!
//! Each function of an expression is given `below`: how many parentheses, NOT and unary minus may
//! still open around what it reads. It starts at the limit of the nest, and the token that would
//! open one more is too deep. An alias may follow an item's expression: `alias` says whether one may,
//! outside parentheses.

ghost use Rattle.std.specs.Prelude.{not, codes, IsTrue, IfOk, IfErr};
ghost use Rattle.mc_ast.specs.Grouping.{grouped_xor};
ghost use Rattle.mc_ast.specs.Values.{operands};
ghost use Rattle.mc_ast.specs.declared.expr.Form.TheVariants as form;
ghost use Rattle.mc_sql.specs.Classes as class;
ghost use Rattle.mc_sql.specs.Rules as rule;
ghost use Rattle.mc_parse.specs.Language.{behind_at, look_at};
ghost use Rattle.mc_parse.specs.Lists.{joined, IsListed};
ghost use Rattle.mc_parse.specs.Place.{is_missing};
ghost use Rattle.mc_parse.specs.Read.{as_operand, IsFault, IsFolded, IsOperandAt};

use crate::boxes::instead;
use crate::comparison::pred;
use crate::fault::Fault;
use crate::operand::{Operand, from_to, opposite, whole, xored};
use crate::place::Place;
use mc_ast::{Expr, Form};
use mc_base::{List, Span};
use mc_token::Keyword;
use std::alloc::Global;

/// xor {OR xor}
#[cycle(expr)]
pub(crate) fn or<'a>(
    alloc: Global,
    below: usize,
    alias: bool,
    place: Place<'a>,
) -> Result<(Operand, Place<'a>), Fault>
    ensures ok { IfOk result (λ found. IsOperandAt alias rule.or below place.entry.tokens.now
        found.1.tokens.now found.0) }
    ensures err { IfErr result (λ fault. IsFault (behind_at alias rule.or) rule.or below
        place.entry.tokens.now fault) }
{
    match xor(alloc, below, alias, place) {
        Ok((first, rest)) => match rest.keyword(Keyword::Or) {
            Some(_) => match any_of(alloc, below, alias, first, rest) {
                Ok((operand, rest)) => Ok((operand, rest)),
                Err(fault) => Err(fault),
            },
            None => Ok((first, rest)),
        },
        Err(fault) => Err(fault),
    }
}

/// {OR xor}, all of them and the first in one list. The word is next.
#[cycle(expr)]
fn any_of<'a>(
    alloc: Global,
    below: usize,
    alias: bool,
    first: Operand,
    place: Place<'a>,
) -> Result<(Operand, Place<'a>), Fault>
    requires { IsTrue (not (is_missing (class.word (codes "or")) place.tokens.now)) }
    ensures ok { IfOk result (λ found. IsFolded (behind_at alias rule.more_xors)
        (look_at alias found.1.tokens.now) rule.more_xors operands
        (joined (λ all. form.Or all) found.0.extent) below place.entry.tokens.now
        found.1.tokens.now (as_operand first) (as_operand found.0)) }
    ensures err { IfErr result (λ fault. IsFault (behind_at alias rule.more_xors) rule.more_xors
        below place.entry.tokens.now fault) }
{
    let Operand { expr, extent } = first;
    let mut list = List::new(alloc);
    list.push(expr)?;
    match push_xors(alloc, below, alias, &mut list, extent, place) {
        Ok((extent, rest)) => Ok((whole(extent, Form::Or(list)), rest)),
        Err(fault) => Err(fault),
    }
}

/// {OR xor}, appended to a list. The first of the list begins at `extent`.
#[cycle(expr)]
fn push_xors<'a>(
    alloc: Global,
    below: usize,
    alias: bool,
    list: &mut List<Expr>,
    extent: Span,
    place: Place<'a>,
) -> Result<(Span, Place<'a>), Fault>
    ensures ok { IfOk result (λ found. IsListed (behind_at alias rule.more_xors)
        (look_at alias found.1.tokens.now) rule.more_xors below place.entry.tokens.now
        found.1.tokens.now list.old list.new extent found.0) }
    ensures ended { IfOk result (λ found.
        IsTrue (is_missing (class.word (codes "or")) found.1.tokens.now)) }
    ensures err { IfErr result (λ fault. IsFault (behind_at alias rule.more_xors) rule.more_xors
        below place.entry.tokens.now fault) }
{
    let mut extent = extent;
    let mut place = place;
    while let Some(behind) = place.keyword(Keyword::Or) {
        match xor(alloc, below, alias, behind) {
            Ok((operand, rest)) => {
                extent = from_to(extent, operand.extent);
                list.push(operand.expr)?;
                place = rest;
            }
            Err(fault) => return Err(fault),
        }
    }
    Ok((extent, place))
}

/// and {XOR and}
#[cycle(expr)]
fn xor<'a>(
    alloc: Global,
    below: usize,
    alias: bool,
    place: Place<'a>,
) -> Result<(Operand, Place<'a>), Fault>
    ensures ok { IfOk result (λ found. IsOperandAt alias rule.xor below place.entry.tokens.now
        found.1.tokens.now found.0) }
    ensures err { IfErr result (λ fault. IsFault (behind_at alias rule.xor) rule.xor below
        place.entry.tokens.now fault) }
{
    match and(alloc, below, alias, place) {
        Ok((first, rest)) => match rest.keyword(Keyword::Xor) {
            Some(_) => match more_ands(alloc, below, alias, first, rest) {
                Ok((operand, rest)) => Ok((operand, rest)),
                Err(fault) => Err(fault),
            },
            None => Ok((first, rest)),
        },
        Err(fault) => Err(fault),
    }
}

/// {XOR and}
#[cycle(expr)]
fn more_ands<'a>(
    alloc: Global,
    below: usize,
    alias: bool,
    first: Operand,
    place: Place<'a>,
) -> Result<(Operand, Place<'a>), Fault>
    ensures ok { IfOk result (λ found. IsFolded (behind_at alias rule.more_ands)
        (look_at alias found.1.tokens.now) rule.more_ands operands grouped_xor below
        place.entry.tokens.now found.1.tokens.now (as_operand first) (as_operand found.0)) }
    ensures err { IfErr result (λ fault. IsFault (behind_at alias rule.more_ands) rule.more_ands
        below place.entry.tokens.now fault) }
{
    let mut operand = first;
    let mut place = place;
    while let Some(behind) = place.keyword(Keyword::Xor) {
        match and(alloc, below, alias, behind) {
            Ok((right, rest)) => {
                operand = xored(alloc, operand, right)?;
                place = rest;
            }
            Err(fault) => return Err(instead(operand, fault)),
        }
    }
    Ok((operand, place))
}

/// not {AND not}
#[cycle(expr)]
fn and<'a>(
    alloc: Global,
    below: usize,
    alias: bool,
    place: Place<'a>,
) -> Result<(Operand, Place<'a>), Fault>
    ensures ok { IfOk result (λ found. IsOperandAt alias rule.and below place.entry.tokens.now
        found.1.tokens.now found.0) }
    ensures err { IfErr result (λ fault. IsFault (behind_at alias rule.and) rule.and below
        place.entry.tokens.now fault) }
{
    match not(alloc, below, alias, place) {
        Ok((first, rest)) => match rest.keyword(Keyword::And) {
            Some(_) => match all_of(alloc, below, alias, first, rest) {
                Ok((operand, rest)) => Ok((operand, rest)),
                Err(fault) => Err(fault),
            },
            None => Ok((first, rest)),
        },
        Err(fault) => Err(fault),
    }
}

/// {AND not}, all of them and the first in one list. The word is next.
#[cycle(expr)]
fn all_of<'a>(
    alloc: Global,
    below: usize,
    alias: bool,
    first: Operand,
    place: Place<'a>,
) -> Result<(Operand, Place<'a>), Fault>
    requires { IsTrue (not (is_missing (class.word (codes "and")) place.tokens.now)) }
    ensures ok { IfOk result (λ found. IsFolded (behind_at alias rule.more_nots)
        (look_at alias found.1.tokens.now) rule.more_nots operands
        (joined (λ all. form.And all) found.0.extent) below place.entry.tokens.now
        found.1.tokens.now (as_operand first) (as_operand found.0)) }
    ensures err { IfErr result (λ fault. IsFault (behind_at alias rule.more_nots) rule.more_nots
        below place.entry.tokens.now fault) }
{
    let Operand { expr, extent } = first;
    let mut list = List::new(alloc);
    list.push(expr)?;
    match push_nots(alloc, below, alias, &mut list, extent, place) {
        Ok((extent, rest)) => Ok((whole(extent, Form::And(list)), rest)),
        Err(fault) => Err(fault),
    }
}

/// {AND not}, appended to a list. The first of the list begins at `extent`.
#[cycle(expr)]
fn push_nots<'a>(
    alloc: Global,
    below: usize,
    alias: bool,
    list: &mut List<Expr>,
    extent: Span,
    place: Place<'a>,
) -> Result<(Span, Place<'a>), Fault>
    ensures ok { IfOk result (λ found. IsListed (behind_at alias rule.more_nots)
        (look_at alias found.1.tokens.now) rule.more_nots below place.entry.tokens.now
        found.1.tokens.now list.old list.new extent found.0) }
    ensures ended { IfOk result (λ found.
        IsTrue (is_missing (class.word (codes "and")) found.1.tokens.now)) }
    ensures err { IfErr result (λ fault. IsFault (behind_at alias rule.more_nots) rule.more_nots
        below place.entry.tokens.now fault) }
{
    let mut extent = extent;
    let mut place = place;
    while let Some(behind) = place.keyword(Keyword::And) {
        match not(alloc, below, alias, behind) {
            Ok((operand, rest)) => {
                extent = from_to(extent, operand.extent);
                list.push(operand.expr)?;
                place = rest;
            }
            Err(fault) => return Err(fault),
        }
    }
    Ok((extent, place))
}

/// NOT not | pred
#[cycle(expr)]
fn not<'a>(
    alloc: Global,
    below: usize,
    alias: bool,
    place: Place<'a>,
) -> Result<(Operand, Place<'a>), Fault>
    ensures ok { IfOk result (λ found. IsOperandAt alias rule.not below place.entry.tokens.now
        found.1.tokens.now found.0) }
    ensures err { IfErr result (λ fault. IsFault (behind_at alias rule.not) rule.not below
        place.entry.tokens.now fault) }
{
    match place.keyword(Keyword::Not) {
        Some(behind) => {
            if below == 0 {
                return Err(Fault::TooDeep(place.left()));
            }
            match not(alloc, below - 1, alias, behind) {
                Ok((operand, rest)) => Ok((opposite(alloc, place.span(), operand)?, rest)),
                Err(fault) => Err(fault),
            }
        }
        None => match pred(alloc, below, alias, place) {
            Ok((operand, rest)) => Ok((operand, rest)),
            Err(fault) => Err(fault),
        },
    }
}
