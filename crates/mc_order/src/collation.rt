ghost use Rattle.mc_charset.specs.Chars.{chars, IsWellFormed};
ghost use Rattle.mc_charset.specs.declared.charset.Charset.{Charset as Set};
ghost use Rattle.mc_order.specs.Consequences.{FirstListBegins, FlatListsAreBounded, SpaceIsWeight};
ghost use Rattle.mc_order.specs.Consequences.{SafeFrontStands, TailsAreComputed, TailsAreWeights};
ghost use Rattle.mc_order.specs.Consequences.{FloorIsAllOrNone, NoFloorBesideTails};
ghost use Rattle.mc_order.specs.Consequences.{HeadsAreChars, EmptyHasNoWeights};
ghost use Rattle.mc_order.specs.Consequences.{CharsAreCut, CharsAreJoined, TextsAreChars};
ghost use Rattle.mc_order.specs.Laws.{IsLawful};
ghost use Rattle.mc_order.specs.Meaning.{Meaning, flat_list, first_chars, IsCharOf, IsSafe};
ghost use Rattle.mc_order.specs.Order.{list_order};
ghost use Rattle.std.specs.Prelude.{◌≡◌, ℕ, List, ◌++◌, ◌∷◌, ◌↔◌, [], IsTrue, OnOk, OnErr, length};
ghost use Rattle.std.specs.Prelude.{slice_index_or};

use crate::Pad;
use mc_base::{NoMemory, Weights};
use mc_charset::{Charset, chars_law};
use std::cmp::Ordering;

/// A collation: how the texts of a character set compare. What one means is a `Meaning`, and each
/// implementation proves that it keeps the laws (`specs/Laws.antt`).
///
/// Texts are well formed in the collation's set and characters are code points of it. Only
/// `put_list` takes memory.
pub trait Collation {
    ghost meaning: { Self → Meaning };

    /// The character set of its texts.
    fn charset(&self) -> Charset
        ensures { result ≡ (meaning self.now).charset };

    /// Whether texts compare as if prolonged by spaces without end.
    fn pad(&self) -> Pad
        ensures { result ≡ (meaning self.now).pad };

    /// The weight of U+0020 where texts are padded, else 0.
    fn space(&self) -> u32
        ensures { result ≡ (meaning self.now).space };

    /// How many weight levels it compares: 1 to 3.
    fn levels(&self) -> u8
        ensures { result ≡ (meaning self.now).levels };

    /// How many bytes hold a weight less `added`: 1 to 3.
    fn weight_width(&self) -> u8
        ensures { result ≡ (meaning self.now).weight_width };

    /// By how much a weight is greater than the number in the collation's table: 0 or 1.
    fn added(&self) -> u32
        ensures { result ≡ (meaning self.now).added };

    /// The order of two texts: that of their flat lists.
    fn compare(&self, a: &[u8], b: &[u8]) -> Ordering
        requires first { IsWellFormed (meaning self.now).charset a.now }
        requires second { IsWellFormed (meaning self.now).charset b.now }
        ensures { let m = meaning self.now in
            let flat = λ (text : List ℕ). flat_list m (chars m.charset text) in
            result ≡ list_order m.pad m.space (flat a.now) (flat b.now) };

    /// Whether two characters have the same flat list.
    fn same_char(&self, c: u32, d: u32) -> bool
        requires first { IsCharOf (meaning self.now).charset c }
        requires second { IsCharOf (meaning self.now).charset d }
        ensures { let m = meaning self.now in
            IsTrue result ↔ (flat_list m (c ∷ []) ≡ flat_list m (d ∷ [])) };

    /// Whether no character that begins a contraction has the flat list of this one.
    fn safe(&self, c: u32) -> bool
        requires { IsCharOf (meaning self.now).charset c }
        ensures { IsTrue result ↔ IsSafe (meaning self.now) c };

    /// How many of a text's first weights its first `k` characters keep at least, where it has so
    /// many: `k` where each character has a weight of its own, else 0.
    fn floor(&self, k: u32) -> u32
        ensures { result ≡ (meaning self.now).floor k };

    /// How many tails there are.
    fn tail_count(&self) -> u32
        ensures { result ≡ length (meaning self.now).tails };

    /// The tail at a place, counted from 0, in lexicographic order, or no weights where there are
    /// no more than `i` tails.
    fn tail(&self, i: u32) -> &[u32]
        ensures { result.now ≡ slice_index_or (meaning self.now).tails i [] };

    /// Appends the flat list of a text, or of its first `first` characters. Without memory `out`
    /// stays as it was.
    fn put_list(&self, text: &[u8], first: Option<u32>, out: &mut Weights) -> Result<(), NoMemory>
        requires { IsWellFormed (meaning self.now).charset text.now }
        ensures ok { let m = meaning self.now in OnOk result
            (out.new ≡ out.old ++ flat_list m (first_chars first (chars m.charset text.now))) }
        ensures err { OnErr result (out.new ≡ out.old) };

    ghost lawful: { (collation : Self) → IsLawful (meaning collation) };
}

/// The laws of a collation, and what follows from them, for code that is generic in it.
pub fn collation_laws<C: Collation>(collation: &C)
    ensures lawful { IsLawful (C.meaning collation.now) }
    ensures first_list { FirstListBegins (C.meaning collation.now) }
    ensures bounded { FlatListsAreBounded (C.meaning collation.now) }
    ensures space { SpaceIsWeight (C.meaning collation.now) }
    ensures safe_front { SafeFrontStands (C.meaning collation.now) }
    ensures tails { TailsAreComputed (C.meaning collation.now) }
    ensures tail_weights { TailsAreWeights (C.meaning collation.now) }
    ensures floor { FloorIsAllOrNone (C.meaning collation.now) }
    ensures no_floor { NoFloorBesideTails (C.meaning collation.now) }
    ensures heads { HeadsAreChars (C.meaning collation.now) }
    ensures empty { EmptyHasNoWeights (C.meaning collation.now) }
{}

/// What lists of characters of a set are: lists cut and joined, and the characters of a text.
pub fn characters_laws()
    ensures cut { (set : Set) → CharsAreCut set }
    ensures joined { (set : Set) → CharsAreJoined set }
    ensures of_text { (set : Set) → TextsAreChars set }
{
    chars_law();
}
