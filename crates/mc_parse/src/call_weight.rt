//! WEIGHT_STRING.

ghost use Rattle.std.specs.Prelude.{◌≡◌, codes, suc, [], ◌∷◌, Some, IfOk, IfErr};
ghost use Rattle.mc_ast.specs.Grouping.{whole};
ghost use Rattle.mc_ast.specs.Values.{operand as an_operand, Operand as Meant};
ghost use Rattle.mc_ast.specs.declared.expr.Form.TheVariants as form;
ghost use Rattle.mc_sql.specs.Rules as rule;
ghost use Rattle.mc_parse.specs.Language.{behind};
ghost use Rattle.mc_parse.specs.Read.{as_operand, IsFault, IsOperand};
ghost use Rattle.mc_parse.specs.Calls.{IsInCall, IsCallRead, IsCallFault};
ghost use Rattle.mc_parse.specs.Cuts.{cut_in, IsCutWord, HasCut};

use crate::boxes::instead;
use crate::call::closed;
use crate::call_plain::{called_alone, many};
use crate::fault::Fault;
use crate::operand::{Operand, whole};
use crate::place::Place;
use crate::predicate::or;
use mc_ast::{Cut, Form};
use mc_base::{Boxed, NoMemory, Span};
use mc_token::{Keyword, Symbol};
use std::alloc::Global;

/// What a cut counts.
#[derive(Clone, Copy, Debug, PartialEq, Eq)]
pub(crate) enum CutUnit {
    Chars,
    Bytes,
}

/// A cut of so many of the unit.
fn cut_of(unit: CutUnit, number: i64) -> Cut
    ensures { result ≡ cut_in unit number }
{
    match unit {
        CutUnit::Chars => Cut::Chars(number),
        CutUnit::Bytes => Cut::Bytes(number),
    }
}

/// The weights of an operand, as a call that stands at `span`.
fn weighed(
    alloc: Global,
    operand: Operand,
    cut: Option<Cut>,
    span: Span,
) -> Result<Operand, NoMemory>
    ensures { IfOk result (λ x. as_operand x ≡ whole span (form.WeightString operand.expr cut)) }
{
    let expr = Boxed::new(alloc, operand.expr)?;
    Ok(whole(span, Form::WeightString { expr, cut }))
}

/// ( Int ) behind AS CHAR or AS BINARY, which `start` stands before.
fn sized<'a>(
    below: usize,
    unit: CutUnit,
    start: Place<'a>,
    place: Place<'a>,
) -> Result<(Cut, Place<'a>), Fault>
    requires { IsCutWord unit start.tokens.now place.tokens.now }
    ensures ok { IfOk result (λ found. HasCut below start.entry.tokens.now found.1.tokens.now
        (Some found.0)) }
    ensures err { IfErr result (λ fault. IsFault (behind rule.cut_option) rule.cut_option below
        start.entry.tokens.now fault) }
{
    let Some(inside) = place.mark(Symbol::LeftParen) else {
        return Err(Fault::NoReading(place.left()));
    };
    if below == 0 {
        return Err(Fault::TooDeep(place.left()));
    }
    let Some((number, behind)) = inside.int() else {
        return Err(Fault::NoReading(inside.left()));
    };
    match behind.mark(Symbol::RightParen) {
        Some(rest) => Ok((cut_of(unit, number), rest)),
        None => Err(Fault::NoReading(behind.left())),
    }
}

/// [AS (CHAR | BINARY) ( Int )]
fn cut_option<'a>(below: usize, place: Place<'a>) -> Result<(Option<Cut>, Place<'a>), Fault>
    ensures ok { IfOk result (λ found. HasCut below place.entry.tokens.now found.1.tokens.now
        found.0) }
    ensures err { IfErr result (λ fault. IsFault (behind rule.cut_option) rule.cut_option below
        place.entry.tokens.now fault) }
{
    let Some(behind) = place.keyword(Keyword::As) else {
        return Ok((None, place));
    };
    if let Some(rest) = behind.keyword(Keyword::Char) {
        return match sized(below, CutUnit::Chars, place, rest) {
            Ok((cut, rest)) => Ok((Some(cut), rest)),
            Err(fault) => Err(fault),
        };
    }
    match behind.keyword(Keyword::Binary) {
        Some(rest) => match sized(below, CutUnit::Bytes, place, rest) {
            Ok((cut, rest)) => Ok((Some(cut), rest)),
            Err(fault) => Err(fault),
        },
        None => Err(Fault::NoReading(behind.left())),
    }
}

/// [AS (CHAR | BINARY) ( Int )] ) behind the operand of WEIGHT_STRING, and the bytes of the call.
fn cut_closed<'a>(
    below: usize,
    word: Place<'a>,
    place: Place<'a>,
) -> Result<(Option<Cut>, Span, Place<'a>), Fault>
    ensures ok { IfOk result (λ found. (x : Meant)
        → IsInCall (codes "weight_string") below 3 (rule.weight_string_call ∷ [])
        (an_operand x ∷ []) word.entry.tokens.now place.entry.tokens.now
        → IsCallRead below word.entry.tokens.now found.2.tokens.now found.1
        (form.WeightString x.expr found.0)) }
    ensures err { IfErr result (λ fault. (x : Meant)
        → IsInCall (codes "weight_string") below 3 (rule.weight_string_call ∷ [])
        (an_operand x ∷ []) word.entry.tokens.now place.entry.tokens.now
        → IsCallFault below word.entry.tokens.now fault) }
{
    match cut_option(below, place) {
        Ok((cut, rest)) => match closed(word, rest) {
            Ok((span, rest)) => Ok((cut, span, rest)),
            Err(fault) => Err(fault),
        },
        Err(fault) => Err(fault),
    }
}

/// [AS (CHAR | BINARY) ( Int )] ) or , or {, or} ) behind the first operand of WEIGHT_STRING.
#[cycle(expr)]
fn cut_or_many<'a>(
    alloc: Global,
    below: usize,
    first: Operand,
    word: Place<'a>,
    place: Place<'a>,
) -> Result<(Operand, Place<'a>), Fault>
    requires { IsInCall (codes "weight_string") below 3
        (rule.weight_string_call ∷ rule.many_call ∷ []) (an_operand (as_operand first) ∷ [])
        word.tokens.now place.tokens.now }
    ensures ok { IfOk result (λ found. IsOperand rule.call (suc below) word.entry.tokens.now
        found.1.tokens.now found.0) }
    ensures err { IfErr result (λ fault. IsCallFault below word.entry.tokens.now fault) }
{
    match place.mark(Symbol::Comma) {
        Some(_) => match many(alloc, below, b"weight_string", first, word, place) {
            Ok((operand, rest)) => Ok((operand, rest)),
            Err(fault) => Err(fault),
        },
        None => match cut_closed(below, word, place) {
            Ok((cut, span, rest)) => Ok((weighed(alloc, first, cut, span)?, rest)),
            Err(fault) => Err(instead(first, fault)),
        },
    }
}

/// WEIGHT_STRING ( or [AS (CHAR | BINARY) ( Int )] ) | WEIGHT_STRING ( [or , or {, or}] ), where
/// the word and `(` are read.
#[cycle(expr)]
pub(crate) fn weight_string<'a>(
    alloc: Global,
    below: usize,
    word: Place<'a>,
    place: Place<'a>,
) -> Result<(Operand, Place<'a>), Fault>
    requires { IsInCall (codes "weight_string") below 2
        (rule.weight_string_call ∷ rule.empty_call ∷ rule.many_call ∷ []) [] word.tokens.now
        place.tokens.now }
    ensures ok { IfOk result (λ found. IsOperand rule.call (suc below) word.entry.tokens.now
        found.1.tokens.now found.0) }
    ensures err { IfErr result (λ fault. IsCallFault below word.entry.tokens.now fault) }
{
    if let Ok((span, rest)) = closed(word, place) {
        return Ok((called_alone(alloc, b"weight_string", span)?, rest));
    }
    match or(alloc, below, false, place) {
        Ok((operand, rest)) => match cut_or_many(alloc, below, operand, word, rest) {
            Ok((operand, rest)) => Ok((operand, rest)),
            Err(fault) => Err(fault),
        },
        Err(fault) => Err(fault),
    }
}
