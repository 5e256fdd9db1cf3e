ghost use Rattle.mc_charset.specs.Chars.{Spells, chars, IsWellFormed};
ghost use Rattle.mc_charset.specs.declared.charset.Charset.{Charset};
ghost use Rattle.mc_strfun.specs.Trimmed.{trimmed, without_leading, without_trailing};
ghost use Rattle.std.specs.Prelude.{
  ◌≡◌,
  ◌↔◌,
  ◌<◌,
  ◌-◌,
  IfOk,
  IsTrue,
  drop,
  length,
};

use crate::replacement::begins;
use mc_base::{NoMemory, Text};
use mc_charset::{Charset, chars_law};
use std::alloc::Global;

/// Where copies are removed.
#[derive(Clone, Copy, Debug, PartialEq, Eq)]
pub enum Side {
    /// In front and then at the end.
    Both,
    /// In front.
    Leading,
    /// At the end.
    Trailing,
}

/// The text without the whole copies of `removed` at the side, compared by code points; the text
/// itself where `removed` is empty.
pub fn trim(
    alloc: Global,
    set: Charset,
    side: Side,
    removed: &Text,
    text: &Text,
) -> Result<Text, NoMemory>
    requires removed { IsWellFormed set removed.now }
    requires text { IsWellFormed set text.now }
    ensures { IfOk result (Spells set (trimmed side (chars set removed.now) (chars set text.now))) }
{
    chars_law();
    if removed.is_empty() {
        return Text::from_slice(alloc, text.as_slice());
    }
    Text::from_slice(alloc, trim_slice(side, removed.as_slice(), text.as_slice()))
}

/// The slice without the copies at the side.
fn trim_slice<'a>(side: Side, removed: &[u8], text: &'a [u8]) -> &'a [u8]
    requires filled { 0 < length removed.now }
    ensures { (set : Charset) → IsWellFormed set removed.now → IsWellFormed set text.now
        → Spells set (trimmed side (chars set removed.now) (chars set text.now)) result.now }
{
    chars_law();
    match side {
        Side::Both => trim_end(removed, trim_front(removed, text)),
        Side::Leading => trim_front(removed, text),
        Side::Trailing => trim_end(removed, text),
    }
}

/// The text from where no copy begins on.
fn trim_front<'a>(removed: &[u8], text: &'a [u8]) -> &'a [u8]
    requires filled { 0 < length removed.now }
    ensures { (set : Charset) → IsWellFormed set removed.now → IsWellFormed set text.now
        → Spells set (without_leading (chars set removed.now) (chars set text.now)) result.now }
{
    chars_law();
    let mut at = 0;
    while begins(&text[at..], removed) {
        at += removed.len();
    }
    &text[at..]
}

/// The text up to where only copies are left. No spelling of a set is the end of a longer one, so
/// bytes that end with those of a copy are characters that end with the copy.
fn trim_end<'a>(removed: &[u8], text: &'a [u8]) -> &'a [u8]
    requires filled { 0 < length removed.now }
    ensures { (set : Charset) → IsWellFormed set removed.now → IsWellFormed set text.now
        → Spells set (without_trailing (chars set removed.now) (chars set text.now)) result.now }
{
    chars_law();
    let mut end = text.len();
    while ends(&text[..end], removed) {
        end -= removed.len();
    }
    &text[..end]
}

/// Whether the text ends with these bytes.
fn ends(text: &[u8], back: &[u8]) -> bool
    ensures { IsTrue result ↔ (drop (length text.now - length back.now) text.now ≡ back.now) }
{
    text.ends_with(back)
}
