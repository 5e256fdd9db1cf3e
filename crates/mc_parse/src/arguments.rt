//! Expressions behind commas, and the arguments of calls.

ghost use Rattle.std.specs.Prelude.{◌≡◌, ℕ, false, [], ◌∷◌, List, IfOk, IfErr};
ghost use Rattle.mc_ast.specs.Values.{operand as an_operand, Operand as Meant};
ghost use Rattle.mc_ast.specs.declared.expr.Form.TheVariants as form;
ghost use Rattle.mc_sql.specs.Rules as rule;
ghost use Rattle.mc_parse.specs.Language.{behind, behind_at};
ghost use Rattle.mc_parse.specs.Read.{IsFault};
ghost use Rattle.mc_parse.specs.Calls.{IsInCall, IsCallRead, IsCallFault, IsPushed, HasOrs};

use crate::call::closed;
use crate::fault::Fault;
use crate::place::Place;
use crate::predicate::or;
use mc_ast::Expr;
use mc_base::{List, Span};
use mc_token::Symbol;
use std::alloc::Global;

/// An expression, appended to a list.
#[cycle(expr)]
pub(crate) fn push_or<'a>(
    alloc: Global,
    below: usize,
    list: &mut List<Expr>,
    place: Place<'a>,
) -> Result<Place<'a>, Fault>
    ensures ok { IfOk result (λ rest. IsPushed below place.entry.tokens.now rest.tokens.now
        list.old list.new) }
    ensures err { IfErr result (λ fault. IsFault (behind_at false rule.or) rule.or below
        place.entry.tokens.now fault) }
{
    match or(alloc, below, false, place) {
        Ok((operand, rest)) => {
            list.push(operand.expr)?;
            Ok(rest)
        }
        Err(fault) => Err(fault),
    }
}

/// {, or}, appended to a list.
#[cycle(expr)]
pub(crate) fn more_ors<'a>(
    alloc: Global,
    below: usize,
    list: &mut List<Expr>,
    place: Place<'a>,
) -> Result<Place<'a>, Fault>
    ensures ok { IfOk result (λ rest. HasOrs below place.entry.tokens.now rest.tokens.now
        list.old list.new) }
    ensures err { IfErr result (λ fault. IsFault (behind rule.more_ors) rule.more_ors below
        place.entry.tokens.now fault) }
{
    let mut place = place;
    while let Some(behind) = place.mark(Symbol::Comma) {
        match push_or(alloc, below, list, behind) {
            Ok(rest) => place = rest,
            Err(fault) => return Err(fault),
        }
    }
    Ok(place)
}

/// , or {, or} ) behind the first argument of a call, and the bytes of the call.
#[cycle(expr)]
pub(crate) fn more_args<'a>(
    alloc: Global,
    below: usize,
    args: &mut List<Expr>,
    word: Place<'a>,
    place: Place<'a>,
) -> Result<(Span, Place<'a>), Fault>
    ensures ok { IfOk result (λ found. (name : List ℕ) (x : Meant) → args.old ≡ x.expr ∷ []
        → IsInCall name below 3 (rule.many_call ∷ []) (an_operand x ∷ []) word.entry.tokens.now
        place.entry.tokens.now
        → IsCallRead below word.entry.tokens.now found.1.tokens.now found.0
        (form.Call name args.new)) }
    ensures err { IfErr result (λ fault. (name : List ℕ) (x : Meant)
        → IsInCall name below 3 (rule.many_call ∷ []) (an_operand x ∷ []) word.entry.tokens.now
        place.entry.tokens.now
        → IsCallFault below word.entry.tokens.now fault) }
{
    let Some(behind) = place.mark(Symbol::Comma) else {
        return Err(Fault::NoReading(place.left()));
    };
    match push_or(alloc, below, args, behind) {
        Ok(rest) => match more_ors(alloc, below, args, rest) {
            Ok(rest) => match closed(word, rest) {
                Ok((span, rest)) => Ok((span, rest)),
                Err(fault) => Err(fault),
            },
            Err(fault) => Err(fault),
        },
        Err(fault) => Err(fault),
    }
}
