ghost use Rattle.mc_charset.specs.Chars.{Spells, chars, IsWellFormed};
ghost use Rattle.mc_strfun.specs.Joins.{spelled_within};
ghost use Rattle.mc_strfun.specs.Pads.{left_padded, right_padded};
ghost use Rattle.mc_values.specs.Values.{greatest_string};
ghost use Rattle.std.specs.List.{repeat};
ghost use Rattle.std.specs.Option.{option_and_then};
ghost use Rattle.std.specs.Prelude.{
  ◌≡◌,
  ◌++◌,
  ◌*◌,
  ◌<◌,
  ◌≤◌,
  ◌-◌,
  ◌^◌,
  List,
  ℕ,
  IfOk,
  length,
  take,
};

use crate::copies::push_copies;
use crate::number::natural;
use crate::part::{front, whole};
use mc_base::{NoMemory, Text};
use mc_charset::{Charset, char_count, chars_law};
use mc_values::GREATEST_STRING;
use std::alloc::Global;

/// The text cut to `count` characters, or behind copies of the pad, the last one cut, up to
/// `count` characters. None exactly where `count` is negative, where padding is needed and the pad
/// is empty, or where the answer is longer than the greatest length of a string.
pub fn lpad(
    alloc: Global,
    set: Charset,
    text: &Text,
    count: i64,
    pad: &Text,
) -> Result<Option<Text>, NoMemory>
    requires text { IsWellFormed set text.now }
    requires pad { IsWellFormed set pad.now }
    requires text_below_4_gib { length text.now < 2 ^ 32 }
    requires pad_below_4_gib { length pad.now < 2 ^ 32 }
    ensures { IfOk result (λ value. value ≡ option_and_then (spelled_within set)
        (left_padded count (chars set pad.now) (chars set text.now))) }
{
    chars_law();
    if count < 0 {
        return Ok(None);
    }
    let kept = front(set, text.as_slice(), natural(count));
    let missing = missing(set, text.as_slice(), natural(count));
    if missing == 0 {
        return whole(alloc, kept);
    }
    if pad.is_empty() || missing > GREATEST_STRING as u64 {
        return Ok(None);
    }
    padded(alloc, set, &[], missing, pad.as_slice(), kept)
}

/// The text cut to `count` characters, or before copies of the pad, the last one cut, up to
/// `count` characters. None exactly where `count` is negative, where padding is needed and the pad
/// is empty, or where the answer is longer than the greatest length of a string.
pub fn rpad(
    alloc: Global,
    set: Charset,
    text: &Text,
    count: i64,
    pad: &Text,
) -> Result<Option<Text>, NoMemory>
    requires text { IsWellFormed set text.now }
    requires pad { IsWellFormed set pad.now }
    requires text_below_4_gib { length text.now < 2 ^ 32 }
    requires pad_below_4_gib { length pad.now < 2 ^ 32 }
    ensures { IfOk result (λ value. value ≡ option_and_then (spelled_within set)
        (right_padded count (chars set pad.now) (chars set text.now))) }
{
    chars_law();
    if count < 0 {
        return Ok(None);
    }
    let kept = front(set, text.as_slice(), natural(count));
    let missing = missing(set, text.as_slice(), natural(count));
    if missing == 0 {
        return whole(alloc, kept);
    }
    if pad.is_empty() || missing > GREATEST_STRING as u64 {
        return Ok(None);
    }
    padded(alloc, set, kept, missing, pad.as_slice(), &[])
}

/// How many characters the text has too few.
fn missing(set: Charset, text: &[u8], count: u64) -> u64
    requires well_formed { IsWellFormed set text.now }
    requires below_4_gib { length text.now < 2 ^ 32 }
    ensures { result ≡ count - length (chars set text.now) }
{
    count.saturating_sub(u64::from(char_count(set, text)))
}

/// Some bytes, so many characters of copies of a pad, and some more bytes, within the greatest
/// length.
fn padded(
    alloc: Global,
    set: Charset,
    before: &[u8],
    missing: u64,
    pad: &[u8],
    behind: &[u8],
) -> Result<Option<Text>, NoMemory>
    requires pad { IsWellFormed set pad.now }
    requires filled { 0 < length pad.now }
    requires small { missing ≤ greatest_string }
    requires before_below_4_gib { length before.now < 2 ^ 32 }
    requires pad_below_4_gib { length pad.now < 2 ^ 32 }
    requires behind_below_4_gib { length behind.now < 2 ^ 32 }
    ensures { IfOk result (λ value. (codes more : List ℕ)
        → Spells set codes before.now → Spells set more behind.now
        → value ≡ spelled_within set
        (codes ++ (take missing (repeat missing (chars set pad.now)) ++ more))) }
{
    chars_law();
    let width = u64::from(char_count(set, pad));
    let copies = (missing / width) as usize;
    let rest = front(set, pad, missing % width);
    let len = before.len() + copies * pad.len() + rest.len() + behind.len();
    if len > GREATEST_STRING {
        return Ok(None);
    }
    Ok(Some(filled(alloc, len, before, copies, pad, rest, behind)?))
}

/// Some bytes, copies of a pad, the front of another one, and some more bytes, in room for so many.
fn filled(
    alloc: Global,
    len: usize,
    before: &[u8],
    copies: usize,
    pad: &[u8],
    rest: &[u8],
    behind: &[u8],
) -> Result<Text, NoMemory>
    ensures { IfOk result (λ text.
        text ≡ before.now ++ (repeat copies pad.now ++ (rest.now ++ behind.now))) }
{
    let mut text = Text::new(alloc);
    text.reserve(len)?;
    text.extend_from_slice(before)?;
    push_copies(alloc, &mut text, pad, copies)?;
    text.extend_from_slice(rest)?;
    text.extend_from_slice(behind)?;
    Ok(text)
}
