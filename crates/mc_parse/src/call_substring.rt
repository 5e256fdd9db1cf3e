//! SUBSTRING.

ghost use Rattle.std.specs.Prelude.{◌≡◌, ℕ, suc, codes, [], ◌∷◌, IfOk, IfErr};
ghost use Rattle.mc_base.specs.declared.span.Span.{Span};
ghost use Rattle.mc_token.specs.declared.lexeme.Lexeme.TheVariants as lexeme;
ghost use Rattle.mc_ast.specs.Grouping.{whole};
ghost use Rattle.mc_ast.specs.Values.{a_token, operand as an_operand, Operand as Meant};
ghost use Rattle.mc_ast.specs.declared.expr.Form.TheVariants as form;
ghost use Rattle.mc_sql.specs.Rules as rule;
ghost use Rattle.mc_parse.specs.Language.{behind};
ghost use Rattle.mc_parse.specs.Place.{IsNext};
ghost use Rattle.mc_parse.specs.Read.{as_operand, IsFault, IsOperand};
ghost use Rattle.mc_parse.specs.Calls.{IsInCall, IsCallRead, IsCallFault};
ghost use Rattle.mc_parse.specs.Parts.{MayRead};

use crate::boxes::{boxed_two, instead};
use crate::call::closed;
use crate::call_plain::{called_alone, one_or_more};
use crate::fault::Fault;
use crate::operand::{Operand, whole};
use crate::place::Place;
use crate::predicate::or;
use mc_ast::{Expr, Form};
use mc_base::{Boxed, NoMemory, Span};
use mc_token::Keyword;
use std::alloc::Global;

/// A part of a text from a place on, as a call that stands at `span`.
fn part_of(
    alloc: Global,
    text: Operand,
    start: Operand,
    len: Option<Boxed<Expr>>,
    span: Span,
) -> Result<Operand, NoMemory>
    ensures { IfOk result (λ x. as_operand x ≡
        whole span (form.SubstringFrom text.expr start.expr len)) }
{
    match boxed_two(alloc, text.expr, start.expr) {
        Ok((expr, start)) => Ok(whole(span, Form::SubstringFrom { expr, start, len })),
        Err(error) => Err(instead(len, error)),
    }
}

/// [FOR or]
#[cycle(expr)]
fn length_option<'a>(
    alloc: Global,
    below: usize,
    place: Place<'a>,
) -> Result<(Option<Boxed<Expr>>, Place<'a>), Fault>
    ensures ok { IfOk result (λ found. MayRead rule.length_option below place.entry.tokens.now
        found.1.tokens.now found.0) }
    ensures err { IfErr result (λ fault. IsFault (behind rule.length_option) rule.length_option
        below place.entry.tokens.now fault) }
{
    let Some(behind) = place.keyword(Keyword::For) else {
        return Ok((None, place));
    };
    match or(alloc, below, false, behind) {
        Ok((operand, rest)) => Ok((Some(Boxed::new(alloc, operand.expr)?), rest)),
        Err(fault) => Err(fault),
    }
}

/// [FOR or] ) behind the start of SUBSTRING, and the bytes of the call.
#[cycle(expr)]
fn length<'a>(
    alloc: Global,
    below: usize,
    word: Place<'a>,
    place: Place<'a>,
) -> Result<(Option<Boxed<Expr>>, Span, Place<'a>), Fault>
    ensures ok { IfOk result (λ found. (x y : Meant) (s : Span)
        → IsInCall (codes "substring") below 5 (rule.substring_call ∷ [])
        (an_operand x ∷ a_token (record { span = s; kind = lexeme.Word (codes "from") })
        ∷ an_operand y ∷ []) word.entry.tokens.now place.entry.tokens.now
        → IsCallRead below word.entry.tokens.now found.2.tokens.now found.1
        (form.SubstringFrom x.expr y.expr found.0)) }
    ensures err { IfErr result (λ fault. (x y : Meant) (s : Span)
        → IsInCall (codes "substring") below 5 (rule.substring_call ∷ [])
        (an_operand x ∷ a_token (record { span = s; kind = lexeme.Word (codes "from") })
        ∷ an_operand y ∷ []) word.entry.tokens.now place.entry.tokens.now
        → IsCallFault below word.entry.tokens.now fault) }
{
    match length_option(alloc, below, place) {
        Ok((len, rest)) => match closed(word, rest) {
            Ok((span, rest)) => Ok((len, span, rest)),
            Err(fault) => Err(instead(len, fault)),
        },
        Err(fault) => Err(fault),
    }
}

/// FROM or [FOR or] ) behind the first operand of SUBSTRING, where FROM is read.
#[cycle(expr)]
fn substring_from<'a>(
    alloc: Global,
    below: usize,
    first: Operand,
    word: Place<'a>,
    place: Place<'a>,
    inside: Place<'a>,
) -> Result<(Operand, Place<'a>), Fault>
    requires before { IsInCall (codes "substring") below 3 (rule.substring_call ∷ [])
        (an_operand (as_operand first) ∷ []) word.tokens.now place.tokens.now }
    requires from { IsNext (lexeme.Word (codes "from")) place.tokens.now inside.tokens.now }
    ensures ok { IfOk result (λ found. IsOperand rule.call (suc below) word.entry.tokens.now
        found.1.tokens.now found.0) }
    ensures err { IfErr result (λ fault. IsCallFault below word.entry.tokens.now fault) }
{
    match or(alloc, below, false, inside) {
        Ok((start, rest)) => match length(alloc, below, word, rest) {
            Ok((len, span, rest)) => Ok((part_of(alloc, first, start, len, span)?, rest)),
            Err(fault) => Err(instead(first, instead(start, fault))),
        },
        Err(fault) => Err(instead(first, fault)),
    }
}

/// or FROM or [FOR or] ) | or {, or} ), where an operand is next.
#[cycle(expr)]
fn substring_or<'a>(
    alloc: Global,
    below: usize,
    word: Place<'a>,
    place: Place<'a>,
) -> Result<(Operand, Place<'a>), Fault>
    requires { IsInCall (codes "substring") below 2
        (rule.substring_call ∷ rule.single_call ∷ rule.many_call ∷ []) [] word.tokens.now
        place.tokens.now }
    ensures ok { IfOk result (λ found. IsOperand rule.call (suc below) word.entry.tokens.now
        found.1.tokens.now found.0) }
    ensures err { IfErr result (λ fault. IsCallFault below word.entry.tokens.now fault) }
{
    match or(alloc, below, false, place) {
        Ok((operand, rest)) => match rest.keyword(Keyword::From) {
            Some(behind) => match substring_from(alloc, below, operand, word, rest, behind) {
                Ok((operand, rest)) => Ok((operand, rest)),
                Err(fault) => Err(fault),
            },
            None => match one_or_more(alloc, below, b"substring", operand, word, rest) {
                Ok((operand, rest)) => Ok((operand, rest)),
                Err(fault) => Err(fault),
            },
        },
        Err(fault) => Err(fault),
    }
}

/// SUBSTRING ( or FROM or [FOR or] ) | SUBSTRING ( [or {, or}] ), where the word and `(` are read.
#[cycle(expr)]
pub(crate) fn substring<'a>(
    alloc: Global,
    below: usize,
    word: Place<'a>,
    place: Place<'a>,
) -> Result<(Operand, Place<'a>), Fault>
    requires { IsInCall (codes "substring") below 2
        (rule.substring_call ∷ rule.empty_call ∷ rule.single_call ∷ rule.many_call ∷ []) []
        word.tokens.now place.tokens.now }
    ensures ok { IfOk result (λ found. IsOperand rule.call (suc below) word.entry.tokens.now
        found.1.tokens.now found.0) }
    ensures err { IfErr result (λ fault. IsCallFault below word.entry.tokens.now fault) }
{
    if let Ok((span, rest)) = closed(word, place) {
        return Ok((called_alone(alloc, b"substring", span)?, rest));
    }
    match substring_or(alloc, below, word, place) {
        Ok((operand, rest)) => Ok((operand, rest)),
        Err(fault) => Err(fault),
    }
}
