ghost use Rattle.mc_charset.specs.Chars.{chars};
ghost use Rattle.mc_like.specs.Fronts.{last_count};
ghost use Rattle.mc_like.specs.Items.{literal_count};
ghost use Rattle.mc_like.specs.Like.{Like};
ghost use Rattle.mc_like.specs.Pattern.{AreOfSet};
ghost use Rattle.std.specs.Prelude.{◌≡◌, ◌↔◌, ◌+◌, ◌*◌, ◌≤◌, ◌∷◌};
ghost use Rattle.std.specs.Prelude.{IsTrue, length, min};

use crate::PatternItem;
use crate::ends::ends_like;
use crate::fit::{Fit, first_in, fit_front, has_any};
use mc_base::Steps;
use mc_charset::{Ascii, Binary, Charset, Encoding, Latin1, Ucs2, Utf8mb3, Utf8mb4, Utf16, Utf32};
use mc_order::Collation;

/// Whether a text of the set matches the items.
// The set is given as a type from here on, so that nothing is asked of it at each character.
pub(crate) fn is_match_in<C: Collation, W>(
    set: Charset,
    collation: &C,
    items: &[PatternItem],
    text: &[u8],
    work: &mut Steps<W>,
) -> bool
    requires same_set { set ≡ (C.meaning collation.now).charset }
    requires of_set { AreOfSet set items.now }
    ensures exact { let codes = chars set text.now in
        IsTrue result ↔ Like (C.meaning collation.now) items.now codes }
    ensures at_most { let n = length (chars set text.now) in let m = length items.now in
        work.new ≤ work.old + (n + 1) * (m + 1) }
    ensures later { min work.old last_count ≤ work.new }
    ensures each_literal { IsTrue result →
        min (work.old + literal_count items.now) last_count ≤ work.new }
{
    match set {
        Charset::Latin1 => is_match::<C, Latin1, W>(collation, items, text, work),
        Charset::Ascii => is_match::<C, Ascii, W>(collation, items, text, work),
        Charset::Utf8mb3 => is_match::<C, Utf8mb3, W>(collation, items, text, work),
        Charset::Utf8mb4 => is_match::<C, Utf8mb4, W>(collation, items, text, work),
        Charset::Ucs2 => is_match::<C, Ucs2, W>(collation, items, text, work),
        Charset::Utf16 => is_match::<C, Utf16, W>(collation, items, text, work),
        Charset::Utf32 => is_match::<C, Utf32, W>(collation, items, text, work),
        Charset::Binary => is_match::<C, Binary, W>(collation, items, text, work),
    }
}

/// Whether a text matches the items.
fn is_match<C: Collation, E: Encoding, W>(
    collation: &C,
    items: &[PatternItem],
    text: &[u8],
    work: &mut Steps<W>,
) -> bool
    requires same_set { E.set ≡ (C.meaning collation.now).charset }
    requires of_set { AreOfSet E.set items.now }
    ensures exact { let codes = chars E.set text.now in
        IsTrue result ↔ Like (C.meaning collation.now) items.now codes }
    ensures at_most { let n = length (chars E.set text.now) in let m = length items.now in
        work.new ≤ work.old + (n + 1) * (m + 1) }
    ensures later { min work.old last_count ≤ work.new }
    ensures each_literal { IsTrue result →
        min (work.old + literal_count items.now) last_count ≤ work.new }
{
    match fit_front::<C, E, W>(collation, items, text, work) {
        Fit::Whole => true,
        Fit::Misfit | Fit::Short => false,
        Fit::Gap { items, rest } => is_match_behind::<C, E, W>(collation, items, rest, work),
    }
}

/// Whether a text matches a `%` and these items behind it.
// The place behind the last `%` is the only one to return to: what was matched up to that `%` has
// as many characters at each place, so the first place leaves the most text behind it, and the `%`
// may pass over what another one would have left out.
fn is_match_behind<C: Collation, E: Encoding, W>(
    collation: &C,
    items: &[PatternItem],
    text: &[u8],
    work: &mut Steps<W>,
) -> bool
    requires same_set { E.set ≡ (C.meaning collation.now).charset }
    requires of_set { AreOfSet E.set items.now }
    ensures exact { IsTrue result ↔
        Like (C.meaning collation.now) (PatternItem.Any ∷ items.now) (chars E.set text.now) }
    ensures at_most { let n = length (chars E.set text.now) in let m = length items.now in
        work.new ≤ work.old + n * (m + 1) + m }
    ensures later { min work.old last_count ≤ work.new }
    ensures each_literal { IsTrue result →
        min (work.old + literal_count items.now) last_count ≤ work.new }
{
    let mut items = items;
    let mut rest = text;
    let mut gaps = has_any(items);
    while gaps {
        match fit_front::<C, E, W>(collation, items, rest, work) {
            Fit::Whole => return true,
            Fit::Short => return false,
            Fit::Gap {
                items: more,
                rest: behind,
            } => {
                items = more;
                rest = behind;
                gaps = has_any(items);
            }
            Fit::Misfit => {
                let Some((_, behind)) = first_in::<E>(rest) else {
                    return false;
                };
                rest = behind;
            }
        }
    }
    ends_like::<C, E, W>(collation, items, rest, work)
}
