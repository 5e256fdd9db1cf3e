ghost use Rattle.mc_charset.specs.Chars.{chars};
ghost use Rattle.mc_like.specs.Fronts.{has_any, IsFit, Takes, Ticks, LeavesOfSet, last_count};
ghost use Rattle.mc_like.specs.Items.{literal_count};
ghost use Rattle.mc_like.specs.Pattern.{AreOfSet, is_of_set};
ghost use Rattle.mc_like.specs.Read.{HasFirst};
ghost use Rattle.mc_order.specs.Meaning.{IsCharOf};
ghost use Rattle.std.specs.Prelude.{◌≡◌, ◌↔◌, ◌+◌, ◌≤◌, ◌∷◌, []};
ghost use Rattle.std.specs.Prelude.{IsTrue, MatchOption, min};

use crate::PatternItem;
use mc_base::Steps;
use mc_charset::{CharAt, Encoding, next_in};
use mc_order::Collation;

/// How far the items before the first `%` match a text.
#[derive(Drop)]
pub(crate) enum Fit<'a> {
    /// Up to a character that does not match, or to the items' end with more text left.
    Misfit,
    /// Up to the text's end, where the items want another character.
    Short,
    /// To the end of both.
    Whole,
    /// To a `%`: the items behind it, and the text that is left.
    Gap {
        items: &'a [PatternItem],
        rest: &'a [u8],
    },
}

/// Goes over the items before the first `%`, one character each.
pub(crate) fn fit_front<'a, C: Collation, E: Encoding, W>(
    collation: &C,
    items: &'a [PatternItem],
    text: &'a [u8],
    work: &mut Steps<W>,
) -> Fit<'a>
    requires same_set { E.set ≡ (C.meaning collation.now).charset }
    requires of_set { AreOfSet E.set items.now }
    ensures fit { IsFit (C.meaning collation.now) E.set items.now (chars E.set text.now) result }
    ensures ticks { Ticks items.now work.old work.new result }
    ensures later { min work.old last_count ≤ work.new }
    ensures left_of_set { LeavesOfSet E.set result }
{
    let mut left = items;
    let mut rest = text;
    while let Some((item, more)) = left.split_first() {
        if let PatternItem::Any = item {
            return Fit::Gap { items: more, rest };
        }
        let Some((code, behind)) = first_in::<E>(rest) else {
            return Fit::Short;
        };
        if !is_taken(collation, *item, code, work) {
            return Fit::Misfit;
        }
        left = more;
        rest = behind;
    }
    match first_in::<E>(rest) {
        Some(_) => Fit::Misfit,
        None => Fit::Whole,
    }
}

/// Whether one of the items is `%`.
pub(crate) fn has_any(items: &[PatternItem]) -> bool
    ensures { result ≡ has_any items.now }
{
    let mut left = items;
    while let Some((item, more)) = left.split_first() {
        if let PatternItem::Any = item {
            return true;
        }
        left = more;
    }
    false
}

/// The first character of a text, and the text behind it.
#[inline(always)]
pub(crate) fn first_in<E: Encoding>(text: &[u8]) -> Option<(u32, &[u8])>
    ensures { MatchOption result (chars E.set text.now ≡ [])
        (λ read. HasFirst E.set text.now read.1.now read.0) }
{
    match next_in::<E>(text) {
        CharAt::Char { code, len } => Some((code, &text[len..])),
        CharAt::End | CharAt::Bad => None,
    }
}

/// Whether an item that is not `%` takes the character. Where they are compared, that is a tick.
#[tactic(auto, using(crate::proofs::Counts::counts))]
fn is_taken<C: Collation, W>(
    collation: &C,
    item: PatternItem,
    code: u32,
    work: &mut Steps<W>,
) -> bool
    requires of_set { IsTrue (is_of_set (C.meaning collation.now).charset item) }
    requires is_char { IsCharOf (C.meaning collation.now).charset code }
    ensures takes { IsTrue result ↔ Takes (C.meaning collation.now) item code }
    ensures at_most { work.new ≤ work.old + 1 }
    ensures at_least { min (work.old + literal_count (item ∷ [])) last_count ≤ work.new }
{
    match item {
        PatternItem::Literal(literal) => {
            work.tick();
            literal == code || collation.same_char(literal, code)
        }
        PatternItem::One | PatternItem::Any => true,
    }
}
