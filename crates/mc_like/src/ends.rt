ghost use Rattle.mc_charset.specs.Chars.{chars};
ghost use Rattle.mc_like.specs.Fronts.{has_any, last_count};
ghost use Rattle.mc_like.specs.Items.{literal_count};
ghost use Rattle.mc_like.specs.Like.{Like};
ghost use Rattle.mc_like.specs.Pattern.{AreOfSet};
ghost use Rattle.std.specs.Prelude.{◌≡◌, ◌↔◌, ◌+◌, ◌≤◌, ◌∷◌, IsTrue};
ghost use Rattle.std.specs.Prelude.{false, drop, length, min};

use crate::PatternItem;
use crate::fit::{Fit, first_in, fit_front};
use mc_base::Steps;
use mc_charset::Encoding;
use mc_order::Collation;

/// Whether the end of a text matches these items, none of which is `%`.
// Each of them takes one character, so there is one place alone to compare at.
pub(crate) fn ends_like<C: Collation, E: Encoding, W>(
    collation: &C,
    items: &[PatternItem],
    text: &[u8],
    work: &mut Steps<W>,
) -> bool
    requires same_set { E.set ≡ (C.meaning collation.now).charset }
    requires of_set { AreOfSet E.set items.now }
    requires no_any { has_any items.now ≡ false }
    ensures exact { IsTrue result ↔
        Like (C.meaning collation.now) (PatternItem.Any ∷ items.now) (chars E.set text.now) }
    ensures at_most { work.new ≤ work.old + length items.now }
    ensures later { min work.old last_count ≤ work.new }
    ensures each_literal { IsTrue result →
        min (work.old + literal_count items.now) last_count ≤ work.new }
{
    if items.is_empty() {
        return true;
    }
    let count = count_in::<E>(text);
    if count < items.len() {
        return false;
    }
    let end = skip_in::<E>(text, count - items.len());
    matches!(
        fit_front::<C, E, W>(collation, items, end, work),
        Fit::Whole
    )
}

/// How many characters a text has.
fn count_in<E: Encoding>(text: &[u8]) -> usize
    ensures { result ≡ length (chars E.set text.now) }
{
    let mut count = 0;
    let mut rest = text;
    while let Some((_, behind)) = first_in::<E>(rest) {
        count += 1;
        rest = behind;
    }
    count
}

/// What is behind so many characters of a text.
fn skip_in<E: Encoding>(text: &[u8], count: usize) -> &[u8]
    ensures { chars E.set result.now ≡ drop count (chars E.set text.now) }
{
    let mut left = count;
    let mut rest = text;
    while left > 0 {
        let Some((_, behind)) = first_in::<E>(rest) else {
            return rest;
        };
        left -= 1;
        rest = behind;
    }
    rest
}
