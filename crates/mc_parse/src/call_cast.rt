//! CAST.

ghost use Rattle.std.specs.Prelude.{◌≡◌, ℕ, suc, codes, [], ◌∷◌, IfOk, IfErr};
ghost use Rattle.mc_ast.specs.Grouping.{whole};
ghost use Rattle.mc_ast.specs.Values.{operand as an_operand, Operand as Meant};
ghost use Rattle.mc_sql.specs.Rules as rule;
ghost use Rattle.mc_parse.specs.Language.{behind};
ghost use Rattle.mc_parse.specs.Read.{as_operand, IsFault, IsOperand};
ghost use Rattle.mc_parse.specs.Calls.{IsInCall, IsCallRead, IsCallFault};
ghost use Rattle.mc_parse.specs.Casts.{HasSet, cast_form};

use crate::boxes::instead;
use crate::call::closed;
use crate::fault::Fault;
use crate::operand::{Operand, whole};
use crate::operators::name_or_binary;
use crate::place::Place;
use crate::predicate::or;
use mc_ast::Form;
use mc_base::{Boxed, NoMemory, Span, Text};
use mc_token::Keyword;
use std::alloc::Global;

/// What an operand is cast to: characters, of a set where one is named, or bytes.
#[derive(Drop)]
pub(crate) enum Target {
    Char(Option<Text>),
    Binary,
}

/// An operand as what it is cast to, as a call that stands at `span`.
fn cast_as(alloc: Global, operand: Operand, target: Target, span: Span) -> Result<Operand, NoMemory>
    ensures { IfOk result (λ x. as_operand x ≡ whole span (cast_form target operand.expr)) }
{
    let expr = Boxed::new(alloc, operand.expr)?;
    match target {
        Target::Char(set) => Ok(whole(span, Form::CastChar { expr, set })),
        Target::Binary => Ok(whole(span, Form::CastBinary(expr))),
    }
}

/// [CHARACTER SET (NAME | BINARY)]
fn set_option<'a>(alloc: Global, place: Place<'a>) -> Result<(Option<Text>, Place<'a>), Fault>
    ensures ok { IfOk result (λ found. (below : ℕ) → HasSet below place.entry.tokens.now
        found.1.tokens.now found.0) }
    ensures err { IfErr result (λ fault. (below : ℕ) → IsFault (behind rule.set_option)
        rule.set_option below place.entry.tokens.now fault) }
{
    let Some(character) = place.keyword(Keyword::Character) else {
        return Ok((None, place));
    };
    let Some(named) = character.keyword(Keyword::Set) else {
        return Err(Fault::NoReading(character.left()));
    };
    match name_or_binary(alloc, named) {
        Ok((set, _, rest)) => Ok((Some(set), rest)),
        Err(fault) => Err(fault),
    }
}

/// AS CHAR [CHARACTER SET (NAME | BINARY)] ) | AS BINARY ) behind the operand of CAST, and the
/// bytes of the call.
fn cast_target<'a>(
    alloc: Global,
    word: Place<'a>,
    place: Place<'a>,
) -> Result<(Target, Span, Place<'a>), Fault>
    ensures ok { IfOk result (λ found. (below : ℕ) (x : Meant)
        → IsInCall (codes "cast") below 3 (rule.cast_char_call ∷ rule.cast_binary_call ∷ [])
        (an_operand x ∷ []) word.entry.tokens.now place.entry.tokens.now
        → IsCallRead below word.entry.tokens.now found.2.tokens.now found.1
        (cast_form found.0 x.expr)) }
    ensures err { IfErr result (λ fault. (below : ℕ) (x : Meant)
        → IsInCall (codes "cast") below 3 (rule.cast_char_call ∷ rule.cast_binary_call ∷ [])
        (an_operand x ∷ []) word.entry.tokens.now place.entry.tokens.now
        → IsCallFault below word.entry.tokens.now fault) }
{
    let Some(kind) = place.keyword(Keyword::As) else {
        return Err(Fault::NoReading(place.left()));
    };
    if let Some(named) = kind.keyword(Keyword::Char) {
        return match set_option(alloc, named) {
            Ok((set, rest)) => match closed(word, rest) {
                Ok((span, rest)) => Ok((Target::Char(set), span, rest)),
                Err(fault) => Err(fault),
            },
            Err(fault) => Err(fault),
        };
    }
    let Some(end) = kind.keyword(Keyword::Binary) else {
        return Err(Fault::NoReading(kind.left()));
    };
    match closed(word, end) {
        Ok((span, rest)) => Ok((Target::Binary, span, rest)),
        Err(fault) => Err(fault),
    }
}

/// CAST ( or AS CHAR [CHARACTER SET (NAME | BINARY)] ) | CAST ( or AS BINARY ), where the word and
/// `(` are read.
#[cycle(expr)]
pub(crate) fn cast<'a>(
    alloc: Global,
    below: usize,
    word: Place<'a>,
    place: Place<'a>,
) -> Result<(Operand, Place<'a>), Fault>
    requires { IsInCall (codes "cast") below 2 (rule.cast_char_call ∷ rule.cast_binary_call ∷ []) []
        word.tokens.now place.tokens.now }
    ensures ok { IfOk result (λ found. IsOperand rule.call (suc below) word.entry.tokens.now
        found.1.tokens.now found.0) }
    ensures err { IfErr result (λ fault. IsCallFault below word.entry.tokens.now fault) }
{
    match or(alloc, below, false, place) {
        Ok((operand, rest)) => match cast_target(alloc, word, rest) {
            Ok((target, span, rest)) => Ok((cast_as(alloc, operand, target, span)?, rest)),
            Err(fault) => Err(instead(operand, fault)),
        },
        Err(fault) => Err(fault),
    }
}
