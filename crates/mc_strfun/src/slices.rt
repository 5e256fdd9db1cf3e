ghost use Rattle.mc_charset.specs.Chars.{Spells, chars, IsWellFormed};
ghost use Rattle.mc_strfun.specs.Slices.{before, left_of, right_of, substring_of};
ghost use Rattle.std.specs.Prelude.{◌≡◌, ◌<◌, ◌^◌, IfOk, length};

use crate::number::natural;
use crate::part::{behind, front};
use mc_base::{NoMemory, Text};
use mc_charset::{Charset, char_count, chars_law};
use std::alloc::Global;

/// The first `count` characters; none where `count` is below 1.
#[tactic(auto, unfolding(crate::specs::Slices::left_of))]
pub fn left(alloc: Global, set: Charset, text: &Text, count: i64) -> Result<Text, NoMemory>
    requires well_formed { IsWellFormed set text.now }
    requires below_4_gib { length text.now < 2 ^ 32 }
    ensures { IfOk result (Spells set (left_of count (chars set text.now))) }
{
    Text::from_slice(alloc, front(set, text.as_slice(), natural(count)))
}

/// The last `count` characters; none where `count` is below 1.
#[tactic(auto, unfolding(crate::specs::Slices::right_of))]
pub fn right(alloc: Global, set: Charset, text: &Text, count: i64) -> Result<Text, NoMemory>
    requires well_formed { IsWellFormed set text.now }
    requires below_4_gib { length text.now < 2 ^ 32 }
    ensures { IfOk result (Spells set (right_of count (chars set text.now))) }
{
    let before = u64::from(char_count(set, text.as_slice())).saturating_sub(natural(count));
    Text::from_slice(alloc, behind(set, text.as_slice(), before))
}

/// The characters from number `first` on, which counts from 1, or from the end where it is
/// negative, at most `count` of them; none where no character has the number, or where `count` is
/// below 1.
pub fn substring(
    alloc: Global,
    set: Charset,
    text: &Text,
    first: i64,
    count: Option<i64>,
) -> Result<Text, NoMemory>
    requires well_formed { IsWellFormed set text.now }
    requires below_4_gib { length text.now < 2 ^ 32 }
    ensures { IfOk result (Spells set (substring_of first count (chars set text.now))) }
{
    chars_law();
    Text::from_slice(alloc, substring_slice(set, text.as_slice(), first, count))
}

/// The slice of a substring.
#[tactic(auto, unfolding(crate::specs::Slices::substring_of))]
fn substring_slice(set: Charset, text: &[u8], first: i64, count: Option<i64>) -> &[u8]
    requires well_formed { IsWellFormed set text.now }
    requires below_4_gib { length text.now < 2 ^ 32 }
    ensures { Spells set (substring_of first count (chars set text.now)) result.now }
{
    chars_law();
    let Some(skipped) = before(set, text, first) else {
        return &text[..0];
    };
    let rest = behind(set, text, skipped);
    match count {
        None => rest,
        Some(count) => front(set, rest, natural(count)),
    }
}

/// How many characters stand before number `first`.
fn before(set: Charset, text: &[u8], first: i64) -> Option<u64>
    requires well_formed { IsWellFormed set text.now }
    requires below_4_gib { length text.now < 2 ^ 32 }
    ensures { result ≡ before first (length (chars set text.now)) }
{
    if first > 0 {
        return Some(first as u64 - 1);
    }
    if first == 0 {
        return None;
    }
    u64::from(char_count(set, text)).checked_sub(first.unsigned_abs())
}
