//! CONVERT.

ghost use Rattle.std.specs.Prelude.{◌≡◌, ℕ, suc, codes, [], ◌∷◌, IfOk, IfErr};
ghost use Rattle.mc_ast.specs.Grouping.{whole};
ghost use Rattle.mc_ast.specs.Values.{operand as an_operand, Operand as Meant};
ghost use Rattle.mc_ast.specs.declared.expr.Form.TheVariants as form;
ghost use Rattle.mc_sql.specs.Rules as rule;
ghost use Rattle.mc_parse.specs.Read.{as_operand, IsOperand};
ghost use Rattle.mc_parse.specs.Calls.{IsInCall, IsCallRead, IsCallFault};

use crate::boxes::instead;
use crate::call::closed;
use crate::fault::Fault;
use crate::operand::{Operand, whole};
use crate::operators::name_or_binary;
use crate::place::Place;
use crate::predicate::or;
use mc_ast::Form;
use mc_base::{Boxed, NoMemory, Span, Text};
use mc_token::Keyword;
use std::alloc::Global;

/// An operand in another set, as a call that stands at `span`.
fn converted(alloc: Global, operand: Operand, set: Text, span: Span) -> Result<Operand, NoMemory>
    ensures { IfOk result (λ x. as_operand x ≡ whole span (form.Convert operand.expr set)) }
{
    let expr = Boxed::new(alloc, operand.expr)?;
    Ok(whole(span, Form::Convert { expr, set }))
}

/// USING (NAME | BINARY) ) behind the operand of CONVERT, and the bytes of the call.
fn using_set<'a>(
    alloc: Global,
    word: Place<'a>,
    place: Place<'a>,
) -> Result<(Text, Span, Place<'a>), Fault>
    ensures ok { IfOk result (λ found. (below : ℕ) (x : Meant)
        → IsInCall (codes "convert") below 3 (rule.convert_call ∷ []) (an_operand x ∷ [])
        word.entry.tokens.now place.entry.tokens.now
        → IsCallRead below word.entry.tokens.now found.2.tokens.now found.1
        (form.Convert x.expr found.0)) }
    ensures err { IfErr result (λ fault. (below : ℕ) (x : Meant)
        → IsInCall (codes "convert") below 3 (rule.convert_call ∷ []) (an_operand x ∷ [])
        word.entry.tokens.now place.entry.tokens.now
        → IsCallFault below word.entry.tokens.now fault) }
{
    let Some(behind) = place.keyword(Keyword::Using) else {
        return Err(Fault::NoReading(place.left()));
    };
    match name_or_binary(alloc, behind) {
        Ok((set, _, rest)) => match closed(word, rest) {
            Ok((span, rest)) => Ok((set, span, rest)),
            Err(fault) => Err(fault),
        },
        Err(fault) => Err(fault),
    }
}

/// CONVERT ( or USING (NAME | BINARY) ), where the word and `(` are read.
#[cycle(expr)]
pub(crate) fn convert<'a>(
    alloc: Global,
    below: usize,
    word: Place<'a>,
    place: Place<'a>,
) -> Result<(Operand, Place<'a>), Fault>
    requires { IsInCall (codes "convert") below 2 (rule.convert_call ∷ []) [] word.tokens.now
        place.tokens.now }
    ensures ok { IfOk result (λ found. IsOperand rule.call (suc below) word.entry.tokens.now
        found.1.tokens.now found.0) }
    ensures err { IfErr result (λ fault. IsCallFault below word.entry.tokens.now fault) }
{
    match or(alloc, below, false, place) {
        Ok((operand, rest)) => match using_set(alloc, word, rest) {
            Ok((set, span, rest)) => Ok((converted(alloc, operand, set, span)?, rest)),
            Err(fault) => Err(instead(operand, fault)),
        },
        Err(fault) => Err(fault),
    }
}
