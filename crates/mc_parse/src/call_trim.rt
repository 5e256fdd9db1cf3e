//! TRIM.

ghost use Rattle.std.specs.Prelude.{◌≡◌, ℕ, suc, codes, [], ◌∷◌, Some, Option};
ghost use Rattle.std.specs.Option.{option_map};
ghost use Rattle.std.specs.Prelude.{IsTrue, MatchOption, IfOk, IfErr};
ghost use Rattle.mc_token.specs.declared.lexeme.Lexeme.TheVariants as lexeme;
ghost use Rattle.mc_ast.specs.Grouping.{whole};
ghost use Rattle.mc_ast.specs.Values.{
  operand as an_operand,
  trim_side as a_side,
  maybe_operand,
  Operand as Meant,
};
ghost use Rattle.mc_ast.specs.declared.expr.Form.TheVariants as form;
ghost use Rattle.mc_ast.specs.declared.operators.TrimSide.{TrimSide};
ghost use Rattle.mc_ast.specs.declared.operators.TrimSide.TheVariants as side;
ghost use Rattle.mc_sql.specs.Rules as rule;
ghost use Rattle.mc_parse.specs.Language.{behind};
ghost use Rattle.mc_parse.specs.Place.{are_missing, IsNext};
ghost use Rattle.mc_parse.specs.Read.{as_operand, IsFault, IsOperand};
ghost use Rattle.mc_parse.specs.Calls.{IsInCall, IsCallRead, IsCallFault};
ghost use Rattle.mc_parse.specs.Parts.{side_word, side_words, MayRead};

use crate::boxes::{boxed_two, instead};
use crate::call::closed;
use crate::call_plain::{called_alone, one_or_more};
use crate::fault::Fault;
use crate::operand::{Operand, whole};
use crate::place::Place;
use crate::predicate::or;
use mc_ast::{Expr, Form, TrimSide};
use mc_base::{Boxed, NoMemory, Span};
use mc_token::Keyword;
use std::alloc::Global;

/// A text from which something is removed, as a call that stands at `span`.
fn trimmed(
    alloc: Global,
    side: TrimSide,
    removed: Option<Boxed<Expr>>,
    text: Operand,
    span: Span,
) -> Result<Operand, NoMemory>
    ensures { IfOk result (λ x. as_operand x ≡ whole span (form.Trim side removed text.expr)) }
{
    match Boxed::new(alloc, text.expr) {
        Ok(text) => {
            let form = Form::Trim {
                side,
                removed,
                text,
            };
            Ok(whole(span, form))
        }
        Err(error) => Err(instead(removed, error)),
    }
}

/// A text from both sides of which an operand is removed, as a call that stands at `span`.
fn trimmed_of(
    alloc: Global,
    removed: Operand,
    text: Operand,
    span: Span,
) -> Result<Operand, NoMemory>
    ensures { IfOk result (λ x. as_operand x ≡
        whole span (form.Trim side.Both (Some removed.expr) text.expr)) }
{
    let (removed, text) = boxed_two(alloc, removed.expr, text.expr)?;
    let form = Form::Trim {
        side: TrimSide::Both,
        removed: Some(removed),
        text,
    };
    Ok(whole(span, form))
}

/// BOTH | LEADING | TRAILING, if one is next, and the place behind it.
fn side<'a>(place: Place<'a>) -> Option<(TrimSide, Place<'a>)>
    ensures { MatchOption result (IsTrue (are_missing side_words place.entry.tokens.now))
        (λ found. IsNext (lexeme.Word (side_word found.0)) place.entry.tokens.now
        found.1.tokens.now) }
{
    if let Some(rest) = place.keyword(Keyword::Both) {
        return Some((TrimSide::Both, rest));
    }
    if let Some(rest) = place.keyword(Keyword::Leading) {
        return Some((TrimSide::Leading, rest));
    }
    match place.keyword(Keyword::Trailing) {
        Some(rest) => Some((TrimSide::Trailing, rest)),
        None => None,
    }
}

/// [or], before FROM.
#[cycle(expr)]
fn or_option<'a>(
    alloc: Global,
    below: usize,
    place: Place<'a>,
) -> Result<(Option<Boxed<Expr>>, Place<'a>), Fault>
    ensures ok { IfOk result (λ found. MayRead rule.or_option below place.entry.tokens.now
        found.1.tokens.now found.0) }
    ensures err { IfErr result (λ fault. IsFault (behind rule.or_option) rule.or_option below
        place.entry.tokens.now fault) }
{
    if let Some(_) = place.keyword(Keyword::From) {
        return Ok((None, place));
    }
    match or(alloc, below, false, place) {
        Ok((operand, rest)) => Ok((Some(Boxed::new(alloc, operand.expr)?), rest)),
        Err(fault) => Err(fault),
    }
}

/// FROM or ) behind what TRIM removes, and the bytes of the call.
#[cycle(expr)]
fn from_text<'a>(
    alloc: Global,
    below: usize,
    word: Place<'a>,
    place: Place<'a>,
) -> Result<(Operand, Span, Place<'a>), Fault>
    ensures side_ok { IfOk result (λ found. (s : TrimSide) (m : Option Meant)
        → IsInCall (codes "trim") below 4 (rule.trim_side_call ∷ [])
        (a_side s ∷ maybe_operand m ∷ []) word.entry.tokens.now place.entry.tokens.now
        → IsCallRead below word.entry.tokens.now found.2.tokens.now found.1
        (form.Trim s (option_map (λ x. x.expr) m) found.0.expr)) }
    ensures ok { IfOk result (λ found. (x : Meant)
        → IsInCall (codes "trim") below 3 (rule.trim_call ∷ []) (an_operand x ∷ [])
        word.entry.tokens.now place.entry.tokens.now
        → IsCallRead below word.entry.tokens.now found.2.tokens.now found.1
        (form.Trim side.Both (Some x.expr) found.0.expr)) }
    ensures side_err { IfErr result (λ fault. (s : TrimSide) (m : Option Meant)
        → IsInCall (codes "trim") below 4 (rule.trim_side_call ∷ [])
        (a_side s ∷ maybe_operand m ∷ []) word.entry.tokens.now place.entry.tokens.now
        → IsCallFault below word.entry.tokens.now fault) }
    ensures err { IfErr result (λ fault. (x : Meant)
        → IsInCall (codes "trim") below 3 (rule.trim_call ∷ []) (an_operand x ∷ [])
        word.entry.tokens.now place.entry.tokens.now
        → IsCallFault below word.entry.tokens.now fault) }
{
    let Some(behind) = place.keyword(Keyword::From) else {
        return Err(Fault::NoReading(place.left()));
    };
    match or(alloc, below, false, behind) {
        Ok((operand, rest)) => match closed(word, rest) {
            Ok((span, rest)) => Ok((operand, span, rest)),
            Err(fault) => Err(instead(operand, fault)),
        },
        Err(fault) => Err(fault),
    }
}

/// [or] FROM or ) behind the side of TRIM.
#[cycle(expr)]
fn trim_side<'a>(
    alloc: Global,
    below: usize,
    side: TrimSide,
    word: Place<'a>,
    place: Place<'a>,
) -> Result<(Operand, Place<'a>), Fault>
    requires { IsInCall (codes "trim") below 3 (rule.trim_side_call ∷ []) (a_side side ∷ [])
        word.tokens.now place.tokens.now }
    ensures ok { IfOk result (λ found. IsOperand rule.call (suc below) word.entry.tokens.now
        found.1.tokens.now found.0) }
    ensures err { IfErr result (λ fault. IsCallFault below word.entry.tokens.now fault) }
{
    match or_option(alloc, below, place) {
        Ok((removed, rest)) => match from_text(alloc, below, word, rest) {
            Ok((text, span, rest)) => Ok((trimmed(alloc, side, removed, text, span)?, rest)),
            Err(fault) => Err(instead(removed, fault)),
        },
        Err(fault) => Err(fault),
    }
}

/// FROM or ) behind the first operand of TRIM.
#[cycle(expr)]
fn trim_from<'a>(
    alloc: Global,
    below: usize,
    first: Operand,
    word: Place<'a>,
    place: Place<'a>,
) -> Result<(Operand, Place<'a>), Fault>
    requires { IsInCall (codes "trim") below 3 (rule.trim_call ∷ [])
        (an_operand (as_operand first) ∷ []) word.tokens.now place.tokens.now }
    ensures ok { IfOk result (λ found. IsOperand rule.call (suc below) word.entry.tokens.now
        found.1.tokens.now found.0) }
    ensures err { IfErr result (λ fault. IsCallFault below word.entry.tokens.now fault) }
{
    match from_text(alloc, below, word, place) {
        Ok((text, span, rest)) => Ok((trimmed_of(alloc, first, text, span)?, rest)),
        Err(fault) => Err(instead(first, fault)),
    }
}

/// or FROM or ) | or {, or} ), where an operand is next.
#[cycle(expr)]
fn trim_or<'a>(
    alloc: Global,
    below: usize,
    word: Place<'a>,
    place: Place<'a>,
) -> Result<(Operand, Place<'a>), Fault>
    requires { IsInCall (codes "trim") below 2
        (rule.trim_call ∷ rule.single_call ∷ rule.many_call ∷ []) [] word.tokens.now
        place.tokens.now }
    ensures ok { IfOk result (λ found. IsOperand rule.call (suc below) word.entry.tokens.now
        found.1.tokens.now found.0) }
    ensures err { IfErr result (λ fault. IsCallFault below word.entry.tokens.now fault) }
{
    match or(alloc, below, false, place) {
        Ok((operand, rest)) => match rest.keyword(Keyword::From) {
            Some(_) => match trim_from(alloc, below, operand, word, rest) {
                Ok((operand, rest)) => Ok((operand, rest)),
                Err(fault) => Err(fault),
            },
            None => match one_or_more(alloc, below, b"trim", operand, word, rest) {
                Ok((operand, rest)) => Ok((operand, rest)),
                Err(fault) => Err(fault),
            },
        },
        Err(fault) => Err(fault),
    }
}

/// TRIM ( [BOTH | LEADING | TRAILING] [or] FROM or ) | TRIM ( [or {, or}] ), where the word and `(`
/// are read.
#[cycle(expr)]
pub(crate) fn trim<'a>(
    alloc: Global,
    below: usize,
    word: Place<'a>,
    place: Place<'a>,
) -> Result<(Operand, Place<'a>), Fault>
    requires { IsInCall (codes "trim") below 2
        (rule.trim_side_call ∷ rule.trim_call ∷ rule.empty_call ∷ rule.single_call
        ∷ rule.many_call ∷ []) [] word.tokens.now place.tokens.now }
    ensures ok { IfOk result (λ found. IsOperand rule.call (suc below) word.entry.tokens.now
        found.1.tokens.now found.0) }
    ensures err { IfErr result (λ fault. IsCallFault below word.entry.tokens.now fault) }
{
    if let Some((side, inside)) = side(place) {
        return match trim_side(alloc, below, side, word, inside) {
            Ok((operand, rest)) => Ok((operand, rest)),
            Err(fault) => Err(fault),
        };
    }
    if let Ok((span, rest)) = closed(word, place) {
        return Ok((called_alone(alloc, b"trim", span)?, rest));
    }
    match trim_or(alloc, below, word, place) {
        Ok((operand, rest)) => Ok((operand, rest)),
        Err(fault) => Err(fault),
    }
}
