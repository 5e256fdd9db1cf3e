ghost use Rattle.mc_charset.specs.Chars.{chars, code_points, spell, IsWellFormed};
ghost use Rattle.mc_charset.specs.declared.charset.Charset.{Charset as Set};
ghost use Rattle.mc_order.specs.Meaning.{first_chars};
ghost use Rattle.mc_order.specs.Order.{list_order};
ghost use Rattle.std.specs.Prelude.{◌≡◌, ◌++◌, ◌∷◌, ◌<◌, ℕ, List, Some, IfSome, drop, length, map};
ghost use Rattle.std.specs.Prelude.{take};
ghost use Rattle.std.specs.Prelude.{OnOk, OnErr};

use crate::shared::shared_start;
use crate::{Pad, WeightStream, compare_streams, put_first_weights, put_weights};
use mc_base::{NoMemory, Weights};
use mc_charset::{
    Ascii, Binary, CharAt, Charset, Encoding, Latin1, Ucs2, Utf8mb3, Utf8mb4, Utf16, Utf32, next_in,
};
use std::cmp::Ordering;
use std::marker::PhantomData;

/// What gives each character of a set one weight.
pub trait CharWeight {
    ghost set: { Self → Set };

    ghost weight: { Self → ℕ → ℕ };

    /// The set.
    fn set(&self) -> Charset
        ensures { result ≡ set self.now };

    /// The weight of a character, which has this code point and this spelling. The set is also
    /// given as a type, so that nothing is asked of it at each character.
    fn weight<E: Encoding>(&self, code: u32, spelling: &[u8]) -> u32
        requires same_set { E.set ≡ set self.now }
        requires spelled { spell (set self.now) code ≡ Some spelling.now }
        requires some { 0 < length spelling.now }
        requires is_code_point { code < code_points }
        ensures { result ≡ weight self.now code };
}

/// The weights of a text, one for each character.
#[derive(Drop)]
struct CharWeights<'a, W: CharWeight, E: Encoding> {
    weigher: &'a W,
    text: &'a [u8],
    encoding: PhantomData<E>,
    ghost same_set: { E.set ≡ W.set weigher.now },
}

impl<'a, W: CharWeight, E: Encoding> CharWeights<'a, W, E> {
    /// The weights of this text.
    fn new(weigher: &'a W, text: &'a [u8]) -> CharWeights<'a, W, E>
        requires { E.set ≡ W.set weigher.now }
        ensures same { result.weigher.now ≡ weigher.now }
        ensures whole { result.text.now ≡ text.now }
    {
        CharWeights {
            weigher,
            text,
            encoding: PhantomData,
        }
    }
}

impl<'a, W: CharWeight, E: Encoding> WeightStream for CharWeights<'a, W, E> {
    ghost left = { λ weights. let weigher = weights.weigher.now in
        map (W.weight weigher) (chars (W.set weigher) weights.text.now) };

    #[inline(always)]
    fn next_weight(&mut self) -> Option<u32> {
        if let Some(byte) = ascii_front::<E>(self.text) {
            let weight = self.weigher.weight::<E>(u32::from(byte), &self.text[..1]);
            self.text = &self.text[1..];
            return Some(weight);
        }
        match next_in::<E>(self.text) {
            CharAt::Char { code, len } => {
                let weight = self.weigher.weight::<E>(code, &self.text[..len]);
                self.text = &self.text[len..];
                Some(weight)
            }
            CharAt::End | CharAt::Bad => None,
        }
    }
}

/// The first byte of a text in UTF-8, where it is a character by itself.
// Most are. With a look at the set's table for each of them a comparison took five times as long.
#[inline(always)]
#[tactic(auto, using(crate::proofs::Ascii::ascii))]
fn ascii_front<E: Encoding>(text: &[u8]) -> Option<u8>
    ensures some { IfSome result (λ byte. 0 < length text.now) }
    ensures spelled { IfSome result (λ byte. spell E.set byte ≡ Some (take 1 text.now)) }
    ensures front { IfSome result
        (λ byte. chars E.set text.now ≡ byte ∷ chars E.set (drop 1 text.now)) }
{
    match E::charset() {
        Charset::Utf8mb4 => ascii_byte(text),
        Charset::Utf8mb3 => ascii_byte(text),
        _ => None,
    }
}

/// The first byte of a text, where it is below 0x80.
#[inline(always)]
fn ascii_byte(text: &[u8]) -> Option<u8>
    ensures below { IfSome result (λ byte. byte < 0x80) }
    ensures first { IfSome result (λ byte. text.now ≡ byte ∷ drop 1 text.now) }
{
    match *text {
        [byte @ 0x00..=0x7F, ..] => Some(byte),
        _ => None,
    }
}

/// The order of two texts by the weights of their characters. The bytes that they have in common in
/// front are passed over, back to where a character begins.
// Behind them one character of each text decides. Its bytes would do as well for a binary collation
// in every set but utf16, where the first byte of a surrogate pair, 0xD8 to 0xDB, is below that of
// U+E000 to U+FFFF.
pub fn compare_chars<W: CharWeight>(
    weigher: &W,
    a: &[u8],
    b: &[u8],
    pad: Pad,
    space: u32,
) -> Ordering
    requires first { IsWellFormed (W.set weigher.now) a.now }
    requires second { IsWellFormed (W.set weigher.now) b.now }
    ensures { let weights = λ (text : List ℕ).
        map (W.weight weigher.now) (chars (W.set weigher.now) text) in
        result ≡ list_order pad space (weights a.now) (weights b.now) }
{
    let start = shared_start(weigher.set(), a, b);
    compare_from(weigher, &a[start..], &b[start..], pad, space)
}

/// The order of two texts by the weights of their characters, character by character.
fn compare_from<W: CharWeight>(weigher: &W, a: &[u8], b: &[u8], pad: Pad, space: u32) -> Ordering
    ensures { let weights = λ (text : List ℕ).
        map (W.weight weigher.now) (chars (W.set weigher.now) text) in
        result ≡ list_order pad space (weights a.now) (weights b.now) }
{
    match weigher.set() {
        Charset::Latin1 => compare_in::<W, Latin1>(weigher, a, b, pad, space),
        Charset::Ascii => compare_in::<W, Ascii>(weigher, a, b, pad, space),
        Charset::Utf8mb3 => compare_in::<W, Utf8mb3>(weigher, a, b, pad, space),
        Charset::Utf8mb4 => compare_in::<W, Utf8mb4>(weigher, a, b, pad, space),
        Charset::Ucs2 => compare_in::<W, Ucs2>(weigher, a, b, pad, space),
        Charset::Utf16 => compare_in::<W, Utf16>(weigher, a, b, pad, space),
        Charset::Utf32 => compare_in::<W, Utf32>(weigher, a, b, pad, space),
        Charset::Binary => compare_in::<W, Binary>(weigher, a, b, pad, space),
    }
}

/// So in a set that is given as a type.
fn compare_in<W: CharWeight, E: Encoding>(
    weigher: &W,
    a: &[u8],
    b: &[u8],
    pad: Pad,
    space: u32,
) -> Ordering
    requires { E.set ≡ W.set weigher.now }
    ensures { let weights = λ (text : List ℕ).
        map (W.weight weigher.now) (chars (W.set weigher.now) text) in
        result ≡ list_order pad space (weights a.now) (weights b.now) }
{
    let mut left: CharWeights<W, E> = CharWeights::new(weigher, a);
    let mut right: CharWeights<W, E> = CharWeights::new(weigher, b);
    compare_streams(&mut left, &mut right, pad, space)
}

/// Appends the weights of a text, or of its first characters. Without memory `out` stays as it was.
pub fn put_chars<W: CharWeight>(
    weigher: &W,
    text: &[u8],
    first: Option<u32>,
    out: &mut Weights,
) -> Result<(), NoMemory>
    ensures ok { let codes = first_chars first (chars (W.set weigher.now) text.now) in
        OnOk result (out.new ≡ out.old ++ map (W.weight weigher.now) codes) }
    ensures err { OnErr result (out.new ≡ out.old) }
{
    match weigher.set() {
        Charset::Latin1 => put_in::<W, Latin1>(weigher, text, first, out),
        Charset::Ascii => put_in::<W, Ascii>(weigher, text, first, out),
        Charset::Utf8mb3 => put_in::<W, Utf8mb3>(weigher, text, first, out),
        Charset::Utf8mb4 => put_in::<W, Utf8mb4>(weigher, text, first, out),
        Charset::Ucs2 => put_in::<W, Ucs2>(weigher, text, first, out),
        Charset::Utf16 => put_in::<W, Utf16>(weigher, text, first, out),
        Charset::Utf32 => put_in::<W, Utf32>(weigher, text, first, out),
        Charset::Binary => put_in::<W, Binary>(weigher, text, first, out),
    }
}

/// So in a set that is given as a type.
#[tactic(auto, using(crate::proofs::Steps::cuts))]
fn put_in<W: CharWeight, E: Encoding>(
    weigher: &W,
    text: &[u8],
    first: Option<u32>,
    out: &mut Weights,
) -> Result<(), NoMemory>
    requires { E.set ≡ W.set weigher.now }
    ensures ok { let codes = first_chars first (chars (W.set weigher.now) text.now) in
        OnOk result (out.new ≡ out.old ++ map (W.weight weigher.now) codes) }
    ensures err { OnErr result (out.new ≡ out.old) }
{
    let mut weights: CharWeights<W, E> = CharWeights::new(weigher, text);
    match first {
        Some(count) => put_first_weights(&mut weights, count, out),
        None => put_weights(&mut weights, out),
    }
}
