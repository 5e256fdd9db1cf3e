//! COUNT, and calls with their arguments alone.

ghost use Rattle.std.specs.Prelude.{◌≡◌, ℕ, suc, codes, [], ◌∷◌, IfOk, IfErr, OnOk};
ghost use Rattle.mc_ast.specs.Grouping.{whole};
ghost use Rattle.mc_ast.specs.Values.{operand as an_operand, Operand as Meant};
ghost use Rattle.mc_ast.specs.declared.expr.Form.TheVariants as form;
ghost use Rattle.mc_sql.specs.Rules as rule;
ghost use Rattle.mc_token.specs.declared.lexeme.Lexeme.TheVariants as lexeme;
ghost use Rattle.mc_parse.specs.Place.{IsNext};
ghost use Rattle.mc_parse.specs.Read.{as_operand, IsOperand};
ghost use Rattle.mc_parse.specs.Calls.{IsInCall, IsCallRead, IsCallFault};

use crate::arguments::more_args;
use crate::boxes::instead;
use crate::call::closed;
use crate::fault::Fault;
use crate::operand::{Operand, whole};
use crate::place::Place;
use crate::predicate::or;
use mc_ast::{Expr, Form};
use mc_base::{Boxed, List, NoMemory, Span, Text};
use mc_token::{Keyword, Symbol};
use std::alloc::Global;

/// The operand of COUNT ( DISTINCT or ), as a call that stands at `span`.
fn counted(alloc: Global, operand: Operand, span: Span) -> Result<Operand, NoMemory>
    ensures { IfOk result (λ x. as_operand x ≡ whole span (form.CountDistinct operand.expr)) }
{
    let expr = Boxed::new(alloc, operand.expr)?;
    Ok(whole(span, Form::CountDistinct(expr)))
}

/// A call without arguments, which stands at `span`.
pub(crate) fn called_alone(alloc: Global, name: &[u8], span: Span) -> Result<Operand, NoMemory>
    ensures { IfOk result (λ x. as_operand x ≡ whole span (form.Call name.now [])) }
{
    let args = List::new(alloc);
    let name = Text::from_slice(alloc, name)?;
    Ok(whole(span, Form::Call { name, args }))
}

/// The one argument of a call that stands at `span`.
fn called_with(
    alloc: Global,
    name: &[u8],
    operand: Operand,
    span: Span,
) -> Result<Operand, NoMemory>
    ensures { IfOk result (λ x. as_operand x ≡
        whole span (form.Call name.now (operand.expr ∷ []))) }
{
    let mut args: List<Expr> = List::new(alloc);
    args.push(operand.expr)?;
    let name = Text::from_slice(alloc, name)?;
    Ok(whole(span, Form::Call { name, args }))
}

/// COUNT ( DISTINCT or ), where the tokens before `or` are read.
#[cycle(expr)]
fn count_distinct<'a>(
    alloc: Global,
    below: usize,
    word: Place<'a>,
    place: Place<'a>,
    inside: Place<'a>,
) -> Result<(Operand, Place<'a>), Fault>
    requires before { IsInCall (codes "count") below 2 (rule.count_distinct_call ∷ []) []
        word.tokens.now place.tokens.now }
    requires distinct { IsNext (lexeme.Word (codes "distinct")) place.tokens.now inside.tokens.now }
    ensures ok { IfOk result (λ found. IsOperand rule.call (suc below) word.entry.tokens.now
        found.1.tokens.now found.0) }
    ensures err { IfErr result (λ fault. IsCallFault below word.entry.tokens.now fault) }
{
    match or(alloc, below, false, inside) {
        Ok((operand, rest)) => match closed(word, rest) {
            Ok((span, rest)) => Ok((counted(alloc, operand, span)?, rest)),
            Err(fault) => Err(instead(operand, fault)),
        },
        Err(fault) => Err(fault),
    }
}

/// COUNT ( * ) | COUNT ( DISTINCT or ) | COUNT ( [or {, or}] ), where the word and `(` are read.
#[cycle(expr)]
pub(crate) fn count<'a>(
    alloc: Global,
    below: usize,
    word: Place<'a>,
    place: Place<'a>,
) -> Result<(Operand, Place<'a>), Fault>
    requires { IsInCall (codes "count") below 2
        (rule.count_all_call ∷ rule.count_distinct_call ∷ rule.empty_call ∷ rule.single_call
        ∷ rule.many_call ∷ []) [] word.tokens.now place.tokens.now }
    ensures ok { IfOk result (λ found. IsOperand rule.call (suc below) word.entry.tokens.now
        found.1.tokens.now found.0) }
    ensures err { IfErr result (λ fault. IsCallFault below word.entry.tokens.now fault) }
{
    if let Some(star) = place.mark(Symbol::Star) {
        return match closed(word, star) {
            Ok((span, rest)) => Ok((whole(span, Form::CountAll), rest)),
            Err(fault) => Err(fault),
        };
    }
    if let Some(distinct) = place.keyword(Keyword::Distinct) {
        return match count_distinct(alloc, below, word, place, distinct) {
            Ok((operand, rest)) => Ok((operand, rest)),
            Err(fault) => Err(fault),
        };
    }
    match plain(alloc, below, b"count", word, place) {
        Ok((operand, rest)) => Ok((operand, rest)),
        Err(fault) => Err(fault),
    }
}

/// NAME ( [or {, or}] ), where the word and `(` are read.
#[cycle(expr)]
pub(crate) fn plain<'a>(
    alloc: Global,
    below: usize,
    name: &[u8],
    word: Place<'a>,
    place: Place<'a>,
) -> Result<(Operand, Place<'a>), Fault>
    requires { IsInCall name.now below 2 (rule.empty_call ∷ rule.single_call ∷ rule.many_call ∷ [])
        [] word.tokens.now place.tokens.now }
    ensures ok { IfOk result (λ found. IsOperand rule.call (suc below) word.entry.tokens.now
        found.1.tokens.now found.0) }
    ensures err { IfErr result (λ fault. IsCallFault below word.entry.tokens.now fault) }
{
    if let Ok((span, rest)) = closed(word, place) {
        return Ok((called_alone(alloc, name, span)?, rest));
    }
    match or(alloc, below, false, place) {
        Ok((operand, rest)) => match one_or_more(alloc, below, name, operand, word, rest) {
            Ok((operand, rest)) => Ok((operand, rest)),
            Err(fault) => Err(fault),
        },
        Err(fault) => Err(fault),
    }
}

/// Two arguments of a call or more, of which the first is read.
#[cycle(expr)]
pub(crate) fn many<'a>(
    alloc: Global,
    below: usize,
    name: &[u8],
    first: Operand,
    word: Place<'a>,
    place: Place<'a>,
) -> Result<(Operand, Place<'a>), Fault>
    requires { IsInCall name.now below 3 (rule.many_call ∷ []) (an_operand (as_operand first) ∷ [])
        word.tokens.now place.tokens.now }
    ensures ok { IfOk result (λ found. IsOperand rule.call (suc below) word.entry.tokens.now
        found.1.tokens.now found.0) }
    ensures err { IfErr result (λ fault. IsCallFault below word.entry.tokens.now fault) }
{
    let mut args: List<Expr> = List::new(alloc);
    args.push(first.expr)?;
    match more_args(alloc, below, &mut args, word, place) {
        Ok((span, rest)) => {
            let name = Text::from_slice(alloc, name)?;
            Ok((whole(span, Form::Call { name, args }), rest))
        }
        Err(fault) => Err(fault),
    }
}

/// {, or} ) behind the first argument of a call.
#[cycle(expr)]
pub(crate) fn one_or_more<'a>(
    alloc: Global,
    below: usize,
    name: &[u8],
    first: Operand,
    word: Place<'a>,
    place: Place<'a>,
) -> Result<(Operand, Place<'a>), Fault>
    requires { IsInCall name.now below 3 (rule.single_call ∷ rule.many_call ∷ [])
        (an_operand (as_operand first) ∷ []) word.tokens.now place.tokens.now }
    ensures ok { IfOk result (λ found. IsOperand rule.call (suc below) word.entry.tokens.now
        found.1.tokens.now found.0) }
    ensures err { IfErr result (λ fault. IsCallFault below word.entry.tokens.now fault) }
{
    if let Ok((span, rest)) = closed(word, place) {
        return Ok((called_with(alloc, name, first, span)?, rest));
    }
    match many(alloc, below, name, first, word, place) {
        Ok((operand, rest)) => Ok((operand, rest)),
        Err(fault) => Err(fault),
    }
}
