ghost use Rattle.mc_charset.specs.Chars.{IsWellFormed, chars};
ghost use Rattle.mc_order.specs.Boundary.{IsBoundary, SharesFront, PartAtOnce, may_begin};
ghost use Rattle.std.specs.Prelude.{◌≡◌, ◌↔◌, ◌≤◌, ◌<◌, IsTrue, length, drop};

use crate::shared_bytes;
use mc_charset::{Charset, chars_law};

/// Whether a spelling may begin at a place of a text with this byte.
fn may_begin(charset: Charset, at: usize, byte: u8) -> bool
    ensures { result ≡ may_begin charset at byte }
{
    match charset {
        Charset::Latin1 | Charset::Ascii | Charset::Binary => true,
        Charset::Utf8mb3 | Charset::Utf8mb4 => byte < 0x80 || byte > 0xBF,
        Charset::Ucs2 => at % 2 == 0,
        Charset::Utf16 => at % 2 == 0 && (byte < 0xDC || byte > 0xDF),
        Charset::Utf32 => at % 4 == 0,
    }
}

/// Whether a character begins at a place of a text, or the text ends there.
#[tactic(auto, using(crate::proofs::Boundary::at_known))]
fn is_boundary(charset: Charset, text: &[u8], at: usize) -> bool
    requires well_formed { IsWellFormed charset text.now }
    requires within { at ≤ length text.now }
    ensures boundary { IsTrue result ↔ IsBoundary charset text.now at }
    ensures start { at ≡ 0 → IsTrue result }
{
    if at == 0 {
        return true;
    }
    if at == text.len() {
        return true;
    }
    may_begin(charset, at, text[at])
}

/// Whether it is so in both texts.
fn is_shared_boundary(charset: Charset, a: &[u8], b: &[u8], at: usize) -> bool
    requires first { IsWellFormed charset a.now }
    requires second { IsWellFormed charset b.now }
    requires within_first { at ≤ length a.now }
    requires within_second { at ≤ length b.now }
    ensures boundary { IsTrue result ↔ (IsBoundary charset a.now at × IsBoundary charset b.now at) }
    ensures start { at ≡ 0 → IsTrue result }
{
    if !is_boundary(charset, a, at) {
        return false;
    }
    is_boundary(charset, b, at)
}

/// Where the characters end that two texts have in common in front: a place in both, in bytes, at
/// or before the first byte that differs. Behind it one text ends, or the next characters differ.
pub fn shared_start(charset: Charset, a: &[u8], b: &[u8]) -> usize
    requires first { IsWellFormed charset a.now }
    requires second { IsWellFormed charset b.now }
    ensures within_first { result ≤ length a.now }
    ensures within_second { result ≤ length b.now }
    ensures shared { SharesFront charset a.now b.now result }
    ensures parts { PartAtOnce (chars charset (drop result a.now))
        (chars charset (drop result b.now)) }
{
    chars_law();
    let mut start = shared_bytes(a, b);
    while !is_shared_boundary(charset, a, b, start) {
        start -= 1;
    }
    start
}
