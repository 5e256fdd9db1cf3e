ghost use Rattle.std.specs.Prelude.{◌≡◌, ◌<◌, ◌≤◌, ◌+◌, ◌==◌, length, slice_index, IfSome, IsTrue};
ghost use Rattle.mc_token.specs.Marks.{
  mark_text,
  less_mark,
  greater_mark,
  bang_mark,
  byte_mark,
  mark_of,
};

use crate::Symbol;

/// The longest mark that this byte begins, where these bytes are behind it.
#[tactic(auto, unfolding(crate::specs::Marks::mark_of))]
pub fn mark_of(first: u8, behind: &[u8]) -> Option<Symbol>
    ensures value { result ≡ mark_of first behind.now }
    ensures within { IfSome result (λ symbol. length (mark_text symbol) ≤ 1 + length behind.now) }
{
    match first {
        b'<' => Some(less_mark(behind)),
        b'>' => Some(greater_mark(behind)),
        b'!' => bang_mark(behind),
        _ => byte_mark(first),
    }
}

/// How many bytes spell a mark.
pub fn mark_len(symbol: Symbol) -> usize
    ensures value { result ≡ length (mark_text symbol) }
    ensures not_empty { 0 < result }
{
    match symbol {
        Symbol::NullEq => 3,
        Symbol::Ne | Symbol::NeBang | Symbol::Le | Symbol::Ge => 2,
        _ => 1,
    }
}

/// The mark that `<` begins before these bytes.
fn less_mark(behind: &[u8]) -> Symbol
    ensures value { result ≡ less_mark behind.now }
    ensures within { length (mark_text result) ≤ 1 + length behind.now }
{
    if begins_with(b'=', behind) {
        if begins_with(b'>', &behind[1..]) {
            Symbol::NullEq
        } else {
            Symbol::Le
        }
    } else if begins_with(b'>', behind) {
        Symbol::Ne
    } else {
        Symbol::Lt
    }
}

/// The mark that `>` begins before these bytes.
fn greater_mark(behind: &[u8]) -> Symbol
    ensures value { result ≡ greater_mark behind.now }
    ensures within { length (mark_text result) ≤ 1 + length behind.now }
{
    if begins_with(b'=', behind) {
        Symbol::Ge
    } else {
        Symbol::Gt
    }
}

/// The mark that `!` begins before these bytes.
fn bang_mark(behind: &[u8]) -> Option<Symbol>
    ensures value { result ≡ bang_mark behind.now }
    ensures within { IfSome result (λ symbol. length (mark_text symbol) ≤ 1 + length behind.now) }
{
    if begins_with(b'=', behind) {
        Some(Symbol::NeBang)
    } else {
        None
    }
}

/// The mark that this byte is, where no longer one begins with it.
fn byte_mark(byte: u8) -> Option<Symbol>
    ensures value { result ≡ byte_mark byte }
    ensures one_byte { IfSome result (λ symbol. length (mark_text symbol) ≡ 1) }
{
    match byte {
        b'(' => Some(Symbol::LeftParen),
        b')' => Some(Symbol::RightParen),
        b',' => Some(Symbol::Comma),
        b'.' => Some(Symbol::Dot),
        b'*' => Some(Symbol::Star),
        b'+' => Some(Symbol::Plus),
        b'-' => Some(Symbol::Minus),
        b'%' => Some(Symbol::Percent),
        b'=' => Some(Symbol::Eq),
        _ => None,
    }
}

/// Whether the bytes begin with this one, which isn't 0.
pub fn begins_with(byte: u8, bytes: &[u8]) -> bool
    requires { 0 < byte }
    ensures value { result ≡ (slice_index bytes.now 0 == byte) }
    ensures not_empty { IsTrue result → 0 < length bytes.now }
{
    !bytes.is_empty() && bytes[0] == byte
}
