//! Calls: their words and their parentheses.

ghost use Rattle.std.specs.Prelude.{◌≡◌, ℕ, suc, IsTrue, MatchOption, IfOk, IfErr};
ghost use Rattle.mc_ast.specs.Grouping.{whole};
ghost use Rattle.mc_ast.specs.declared.expr.Form.TheVariants as form;
ghost use Rattle.mc_sql.specs.Classes as class;
ghost use Rattle.mc_sql.specs.Rules as rule;
ghost use Rattle.mc_parse.specs.Language.{behind};
ghost use Rattle.mc_parse.specs.Read.{IsFault, IsOperand};
ghost use Rattle.mc_parse.specs.Place.{is_missing, are_missing};
ghost use Rattle.mc_parse.specs.Calls.{
  call_words,
  IsCallWord,
  IsOpened,
  IsClosed,
  IsUnclosed,
  IsCallFault,
};

use crate::call_cast::cast;
use crate::call_convert::convert;
use crate::call_plain::{count, plain};
use crate::call_substring::substring;
use crate::call_trim::trim;
use crate::call_weight::weight_string;
use crate::fault::Fault;
use crate::operand::{Operand, from_to};
use crate::place::Place;
use mc_base::Span;
use mc_token::{Keyword, Symbol};
use std::alloc::Global;

/// The word of a call: one with arguments of its own, or any other.
#[derive(Clone, Copy, Debug, PartialEq, Eq)]
pub(crate) enum CallWord {
    Convert,
    Cast,
    Count,
    Trim,
    Substring,
    WeightString,
    Other,
}

/// The word of a call, if it is next, with its text, and the place behind it.
fn call_word<'a>(place: Place<'a>) -> Option<(CallWord, &'a [u8], Place<'a>)>
    ensures { MatchOption result
        (IsTrue (are_missing call_words place.entry.tokens.now)
        × IsTrue (is_missing class.called place.entry.tokens.now))
        (λ found. IsCallWord found.0 found.1.now place.entry.tokens.now found.2.tokens.now) }
{
    if let Some(rest) = place.keyword(Keyword::Convert) {
        return Some((CallWord::Convert, b"convert", rest));
    }
    if let Some(rest) = place.keyword(Keyword::Cast) {
        return Some((CallWord::Cast, b"cast", rest));
    }
    if let Some(rest) = place.keyword(Keyword::Count) {
        return Some((CallWord::Count, b"count", rest));
    }
    if let Some(rest) = place.keyword(Keyword::Trim) {
        return Some((CallWord::Trim, b"trim", rest));
    }
    if let Some(rest) = place.keyword(Keyword::Substring) {
        return Some((CallWord::Substring, b"substring", rest));
    }
    if let Some(rest) = place.keyword(Keyword::WeightString) {
        return Some((CallWord::WeightString, b"weight_string", rest));
    }
    match place.called() {
        Some((name, rest)) => Some((CallWord::Other, name, rest)),
        None => None,
    }
}

/// The bytes of a call that begins at `word`, and the place behind its `)`, which is next.
pub(crate) fn closed<'a>(word: Place<'a>, place: Place<'a>) -> Result<(Span, Place<'a>), Fault>
    ensures ok { IfOk result (λ found. IsClosed word.entry.tokens.now place.entry.tokens.now
        found.1.tokens.now found.0) }
    ensures err { IfErr result (λ fault. IsUnclosed place.entry.tokens.now fault) }
{
    match place.mark(Symbol::RightParen) {
        Some(rest) => Ok((from_to(word.span(), place.span()), rest)),
        None => Err(Fault::NoReading(place.left())),
    }
}

/// What stands in the parentheses of a call, by its word.
#[cycle(expr)]
fn by_word<'a>(
    alloc: Global,
    below: usize,
    kind: CallWord,
    name: &'a [u8],
    word: Place<'a>,
    place: Place<'a>,
) -> Result<(Operand, Place<'a>), Fault>
    requires { IsOpened kind name.now word.tokens.now place.tokens.now }
    ensures ok { IfOk result (λ found. IsOperand rule.call (suc below) word.entry.tokens.now
        found.1.tokens.now found.0) }
    ensures err { IfErr result (λ fault. IsCallFault below word.entry.tokens.now fault) }
{
    match kind {
        CallWord::Convert => match convert(alloc, below, word, place) {
            Ok((operand, rest)) => Ok((operand, rest)),
            Err(fault) => Err(fault),
        },
        CallWord::Cast => match cast(alloc, below, word, place) {
            Ok((operand, rest)) => Ok((operand, rest)),
            Err(fault) => Err(fault),
        },
        CallWord::Count => match count(alloc, below, word, place) {
            Ok((operand, rest)) => Ok((operand, rest)),
            Err(fault) => Err(fault),
        },
        CallWord::WeightString => match weight_string(alloc, below, word, place) {
            Ok((operand, rest)) => Ok((operand, rest)),
            Err(fault) => Err(fault),
        },
        CallWord::Other => match plain(alloc, below, name, word, place) {
            Ok((operand, rest)) => Ok((operand, rest)),
            Err(fault) => Err(fault),
        },
        CallWord::Trim => match trim(alloc, below, word, place) {
            Ok((operand, rest)) => Ok((operand, rest)),
            Err(fault) => Err(fault),
        },
        CallWord::Substring => match substring(alloc, below, word, place) {
            Ok((operand, rest)) => Ok((operand, rest)),
            Err(fault) => Err(fault),
        },
    }
}

/// A call, where its word and `(` are next.
#[cycle(expr)]
pub(crate) fn call<'a>(
    alloc: Global,
    below: usize,
    place: Place<'a>,
) -> Result<(Operand, Place<'a>), Fault>
    ensures ok { IfOk result (λ found. IsOperand rule.call below place.entry.tokens.now
        found.1.tokens.now found.0) }
    ensures err { IfErr result (λ fault. IsFault (behind rule.call) rule.call below
        place.entry.tokens.now fault) }
{
    let Some((kind, name, between)) = call_word(place) else {
        return Err(Fault::NoReading(place.left()));
    };
    let Some(inside) = between.mark(Symbol::LeftParen) else {
        return Err(Fault::NoReading(between.left()));
    };
    if below == 0 {
        return Err(Fault::TooDeep(between.left()));
    }
    match by_word(alloc, below - 1, kind, name, place, inside) {
        Ok((operand, rest)) => Ok((operand, rest)),
        Err(fault) => Err(fault),
    }
}
