ghost use Rattle.std.specs.Prelude.{
  ◌≡◌,
  ◌+◌,
  ◌≤◌,
  ◌<◌,
  ◌++◌,
  ◌==◌,
  ◌||◌,
  ◌&&◌,
  nat_lt,
  map,
  length,
  slice_index,
  IsTrue,
  IfOk,
  OnOk,
};
ghost use Rattle.std.specs.Char.{to_ascii_lowercase};
ghost use Rattle.mc_token.specs.Bytes.{backslash};
ghost use Rattle.mc_token.specs.Lexemes.{escaped, pair, content, inside, lexeme_of};
ghost use Rattle.mc_token.specs.Hexadecimal.{bytes_of_digits};
ghost use Rattle.mc_token.specs.Spellings.{least_len};

use crate::Lexeme;
use crate::element::plain_len;
use crate::hexadecimal::bytes_of_digits;
use crate::spelling::Shape;
use mc_base::{NoMemory, Text};
use std::alloc::Global;

/// What these bytes say, which are spelled so.
#[tactic(auto, unfolding(crate::specs::Lexemes::lexeme_of))]
pub fn lexeme_of(alloc: Global, shape: Shape, bytes: &[u8]) -> Result<Lexeme, NoMemory>
    requires { least_len shape ≤ length bytes.now }
    ensures { IfOk result (λ lexeme. lexeme ≡ lexeme_of shape bytes.now) }
{
    match shape {
        Shape::Word => Ok(Lexeme::Word(folded(alloc, bytes)?)),
        Shape::Name => Ok(Lexeme::Name(folded(alloc, inside(1, bytes))?)),
        Shape::Int(number) => Ok(Lexeme::Int(number)),
        Shape::Str => Ok(Lexeme::Str(content(alloc, bytes[0], inside(1, bytes))?)),
        Shape::National => Ok(Lexeme::National(content(alloc, b'\'', inside(2, bytes))?)),
        Shape::HexString => Ok(Lexeme::Hex(bytes_of_digits(alloc, inside(2, bytes))?)),
        Shape::HexNumber => Ok(Lexeme::Hex(bytes_of_digits(alloc, &bytes[2..])?)),
        Shape::Sym(symbol) => Ok(Lexeme::Sym(symbol)),
    }
}

/// The bytes between so many first ones and the last.
fn inside(first: usize, bytes: &[u8]) -> &[u8]
    requires { first < length bytes.now }
    ensures { result.now ≡ inside first bytes.now }
{
    &bytes[first..bytes.len() - 1]
}

/// The bytes, with the letters from A to Z in lower case.
fn folded(alloc: Global, bytes: &[u8]) -> Result<Text, NoMemory>
    ensures { IfOk result (λ text. text ≡ map to_ascii_lowercase bytes.now) }
{
    let mut text = Text::new(alloc);
    text.reserve(bytes.len())?;
    for byte in bytes {
        text.push(byte.to_ascii_lowercase())?;
    }
    Ok(text)
}

/// The text of a string, by the bytes between its quotes.
// The bytes between two pairs are copied as one slice.
#[tactic(auto, using(crate::proofs::Lexemes::content_steps))]
fn content(alloc: Global, quote: u8, inside: &[u8]) -> Result<Text, NoMemory>
    ensures { IfOk result (λ text. text ≡ content quote inside.now) }
{
    let mut text = Text::new(alloc);
    let mut at = 0;
    while at < inside.len() {
        if begins_pair(quote, inside, at) {
            push_pair(&mut text, inside[at], inside[at + 1])?;
            at += 2;
        } else {
            let end = at + 1 + plain_len(quote, &inside[at + 1..]);
            text.extend_from_slice(&inside[at..end])?;
            at = end;
        }
    }
    Ok(text)
}

/// Whether the byte at this place and the next one are an escape or a doubled quote.
fn begins_pair(quote: u8, inside: &[u8], at: usize) -> bool
    requires { at < length inside.now }
    ensures value { result ≡ (nat_lt (at + 1) (length inside.now)
        && (slice_index inside.now at == backslash
        || (slice_index inside.now at == quote && slice_index inside.now (at + 1) == quote))) }
    ensures within { IsTrue result → at + 1 < length inside.now }
{
    at + 1 < inside.len()
        && (inside[at] == b'\\' || (inside[at] == quote && inside[at + 1] == quote))
}

/// Appends what a backslash or a quote inside a string stands for, with the byte behind it.
#[tactic(auto, unfolding(crate::specs::Lexemes::pair))]
fn push_pair(text: &mut Text, byte: u8, next: u8) -> Result<(), NoMemory>
    ensures { OnOk result (text.new ≡ text.old ++ pair byte next) }
{
    if byte == b'\\' {
        push_escaped(text, next)
    } else {
        text.push(byte)
    }
}

/// Appends what a backslash and this byte stand for.
fn push_escaped(text: &mut Text, byte: u8) -> Result<(), NoMemory>
    ensures { OnOk result (text.new ≡ text.old ++ escaped byte) }
{
    match byte {
        b'0' => text.push(0x00),
        b'b' => text.push(0x08),
        b'n' => text.push(b'\n'),
        b'r' => text.push(b'\r'),
        b't' => text.push(b'\t'),
        b'Z' => text.push(0x1A),
        b'%' | b'_' => text.extend_from_slice(&[b'\\', byte]),
        _ => text.push(byte),
    }
}
