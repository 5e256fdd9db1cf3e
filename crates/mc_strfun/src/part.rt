ghost use Rattle.mc_charset.specs.Chars.{Spells, chars, IsWellFormed};
ghost use Rattle.mc_values.specs.Values.{within_limit};
ghost use Rattle.std.specs.Prelude.{
  ◌≡◌,
  ◌<◌,
  ◌≤◌,
  ◌^◌,
  IfOk,
  drop,
  length,
  take,
};

use crate::number::bounded;
use mc_base::{NoMemory, Text};
use mc_charset::{Charset, char_start, chars_law};
use mc_values::{GREATEST_STRING, within_limit};
use std::alloc::Global;

/// The slice that the first `count` characters spell, or all where there are no more.
pub(crate) fn front(set: Charset, text: &[u8], count: u64) -> &[u8]
    requires well_formed { IsWellFormed set text.now }
    requires below_4_gib { length text.now < 2 ^ 32 }
    ensures spelled { Spells set (take count (chars set text.now)) result.now }
    ensures within { length result.now ≤ length text.now }
{
    chars_law();
    &text[..char_start(set, text, bounded(count))]
}

/// The slice that the characters behind the first `count` spell.
pub(crate) fn behind(set: Charset, text: &[u8], count: u64) -> &[u8]
    requires well_formed { IsWellFormed set text.now }
    requires below_4_gib { length text.now < 2 ^ 32 }
    ensures spelled { Spells set (drop count (chars set text.now)) result.now }
    ensures within { length result.now ≤ length text.now }
{
    chars_law();
    &text[char_start(set, text, bounded(count))..]
}

/// The bytes, within the greatest length.
pub(crate) fn whole(alloc: Global, text: &[u8]) -> Result<Option<Text>, NoMemory>
    ensures { IfOk result (λ value. value ≡ within_limit text.now) }
{
    if text.len() > GREATEST_STRING {
        return Ok(None);
    }
    Ok(within_limit(Text::from_slice(alloc, text)?))
}
