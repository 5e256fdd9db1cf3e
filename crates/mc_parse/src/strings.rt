//! Strings: their parts side by side are one text.

ghost use Rattle.std.specs.Prelude.{◌≡◌, ℕ, codes, drop, IfOk, IfErr};
ghost use Rattle.mc_sql.specs.Classes as class;
ghost use Rattle.mc_sql.specs.Rules as rule;
ghost use Rattle.mc_parse.specs.declared.fault.Fault.TheVariants.{NoMemory as OutOfMemory};
ghost use Rattle.mc_parse.specs.Language.{behind};
ghost use Rattle.mc_parse.specs.Place.{span_at, IsTextOf};
ghost use Rattle.mc_parse.specs.Read.{IsFault, IsOperand};
ghost use Rattle.mc_parse.specs.Strings.{IsJoined};

use crate::fault::Fault;
use crate::operand::{Operand, from_to, whole};
use crate::place::Place;
use mc_ast::Form;
use mc_base::{Span, Text};
use std::alloc::Global;

/// {Str}: what is said so far, and more, from the first to the last byte.
fn more_strs<'a>(
    first: Text,
    extent: Span,
    place: Place<'a>,
) -> Result<(Text, Span, Place<'a>), Fault>
    ensures ok { IfOk result (λ found. (below : ℕ) → IsJoined below place.entry.tokens.now
        found.2.tokens.now first found.0 extent found.1) }
    ensures err { IfErr result (λ fault. fault ≡ OutOfMemory) }
{
    let mut text = first;
    let mut last = extent;
    let mut place = place;
    while let Some((more, rest)) = place.str() {
        text.extend_from_slice(more)?;
        last = from_to(last, place.span());
        place = rest;
    }
    Ok((text, last, place))
}

/// A text that begins with `first`, which stands at `extent`, and strings behind it.
fn joined<'a>(
    alloc: Global,
    first: &[u8],
    extent: Span,
    place: Place<'a>,
) -> Result<(Text, Span, Place<'a>), Fault>
    ensures ok { IfOk result (λ found. (below : ℕ) → IsJoined below place.entry.tokens.now
        found.2.tokens.now first.now found.0 extent found.1) }
    ensures err { IfErr result (λ fault. fault ≡ OutOfMemory) }
{
    let text = Text::from_slice(alloc, first)?;
    match more_strs(text, extent, place) {
        Ok((text, last, rest)) => Ok((text, last, rest)),
        Err(fault) => Err(fault),
    }
}

/// The name of a set behind its `_`.
fn set_of(word: &[u8]) -> &[u8]
    ensures { result.now ≡ drop 1 word.now }
{
    match word {
        [_, set @ ..] => set,
        [] => word,
    }
}

/// INTRO Str {Str} | INTRO Hex, where the introducer is read.
fn introduced<'a>(
    alloc: Global,
    start: Place<'a>,
    word: &[u8],
    place: Place<'a>,
) -> Result<(Operand, Place<'a>), Fault>
    requires { IsTextOf class.intro start.tokens.now place.tokens.now word.now }
    ensures ok { IfOk result (λ found. (below : ℕ) → IsOperand rule.string below
        start.entry.tokens.now found.1.tokens.now found.0) }
    ensures err { IfErr result (λ fault. (below : ℕ) → IsFault (behind rule.string) rule.string
        below start.entry.tokens.now fault) }
{
    let extent = from_to(start.span(), place.span());
    if let Some((first, rest)) = place.str() {
        let set = Text::from_slice(alloc, set_of(word))?;
        return match joined(alloc, first, extent, rest) {
            Ok((text, span, rest)) => Ok((whole(span, Form::IntroStr { set, text }), rest)),
            Err(fault) => Err(fault),
        };
    }
    if let Some((bytes, rest)) = place.hex() {
        let set = Text::from_slice(alloc, set_of(word))?;
        let text = Text::from_slice(alloc, bytes)?;
        return Ok((whole(extent, Form::IntroHex { set, text }), rest));
    }
    Err(Fault::NoReading(place.left()))
}

/// Str {Str} | National {Str} | Hex | INTRO Str {Str} | INTRO Hex
pub(crate) fn string<'a>(alloc: Global, place: Place<'a>) -> Result<(Operand, Place<'a>), Fault>
    ensures ok { IfOk result (λ found. (below : ℕ) → IsOperand rule.string below
        place.entry.tokens.now found.1.tokens.now found.0) }
    ensures err { IfErr result (λ fault. (below : ℕ) → IsFault (behind rule.string) rule.string
        below place.entry.tokens.now fault) }
{
    let span = place.span();
    if let Some((first, rest)) = place.str() {
        return match joined(alloc, first, span, rest) {
            Ok((text, span, rest)) => Ok((whole(span, Form::Str(text)), rest)),
            Err(fault) => Err(fault),
        };
    }
    if let Some((first, rest)) = place.national() {
        return match joined(alloc, first, span, rest) {
            Ok((text, span, rest)) => Ok((whole(span, Form::National(text)), rest)),
            Err(fault) => Err(fault),
        };
    }
    if let Some((bytes, rest)) = place.hex() {
        return Ok((
            whole(span, Form::Hex(Text::from_slice(alloc, bytes)?)),
            rest,
        ));
    }
    match place.intro() {
        Some((word, rest)) => match introduced(alloc, place, word, rest) {
            Ok((operand, rest)) => Ok((operand, rest)),
            Err(fault) => Err(fault),
        },
        None => Err(Fault::NoReading(place.left())),
    }
}
