ghost use Rattle.mc_allkeys.specs.Fronts.{IsFresh};
ghost use Rattle.mc_charset.specs.Chars.{chars, IsWellFormed};
ghost use Rattle.mc_order.specs.Boundary.{SharesFront};
ghost use Rattle.mc_order.specs.Meaning.{flat_list, separator};
ghost use Rattle.mc_order.specs.Order.{list_order};
ghost use Rattle.mc_uca.specs.FreshFronts.{IsFreshFront};
ghost use Rattle.mc_uca.specs.Kind.{pad_of};
ghost use Rattle.mc_uca.specs.UcaMeaning.{uca_meaning};
ghost use Rattle.mc_uca.specs.Weighing.{set_contractions, uca_list};
ghost use Rattle.std.specs.Bool.{OnTrue};
ghost use Rattle.std.specs.List.{All};
ghost use Rattle.std.specs.Ordering.{ordering_then};
ghost use Rattle.std.specs.Prelude.{◌≡◌, ◌⊎◌, ◌≤◌, ◌<◌, ℕ, List, length, drop};

use crate::cursor::TextWeights;
use crate::weigher::Weigher;
use mc_allkeys::{level_law, longest_law};
use mc_charset::{
    Ascii, Binary, CharAt, Charset, Encoding, Latin1, Ucs2, Utf8mb3, Utf8mb4, Utf16, Utf32,
    chars_law, next_in,
};
use mc_order::{compare_streams, order_laws, shared_start};
use mc_rules::elements_law;
use std::cmp::Ordering;

impl Weigher {
    /// The order of two texts by their weights, level by level, without a list of them.
    pub(crate) fn compare(&self, a: &[u8], b: &[u8], space: u32) -> Ordering
        requires first { IsWellFormed self.now.charset a.now }
        requires second { IsWellFormed self.now.charset b.now }
        ensures { let m = uca_meaning self.now.charset self.now.kind self.now.keys in
            let flat = λ (text : List ℕ). flat_list m (chars m.charset text) in
            result ≡ list_order m.pad space (flat a.now) (flat b.now) }
    {
        match self.charset {
            Charset::Latin1 => self.compare_in::<Latin1>(a, b, space),
            Charset::Ascii => self.compare_in::<Ascii>(a, b, space),
            Charset::Utf8mb3 => self.compare_in::<Utf8mb3>(a, b, space),
            Charset::Utf8mb4 => self.compare_in::<Utf8mb4>(a, b, space),
            Charset::Ucs2 => self.compare_in::<Ucs2>(a, b, space),
            Charset::Utf16 => self.compare_in::<Utf16>(a, b, space),
            Charset::Utf32 => self.compare_in::<Utf32>(a, b, space),
            Charset::Binary => self.compare_in::<Binary>(a, b, space),
        }
    }

    /// So in a set that is given as a type. What both texts have in front is passed over, back
    /// to a place that no contraction reaches over.
    fn compare_in<E: Encoding>(&self, a: &[u8], b: &[u8], space: u32) -> Ordering
        requires set { E.set ≡ self.now.charset }
        requires first { IsWellFormed self.now.charset a.now }
        requires second { IsWellFormed self.now.charset b.now }
        ensures { let m = uca_meaning self.now.charset self.now.kind self.now.keys in
            let flat = λ (text : List ℕ). flat_list m (chars m.charset text) in
            result ≡ list_order m.pad space (flat a.now) (flat b.now) }
    {
        let start = shared_start(self.charset, a, b);
        if self.are_fresh::<E>(&a[start..], &b[start..]) {
            return self.compare_behind::<E>(a, b, start, space);
        }
        let earlier = self.last_fresh::<E>(a, b, start);
        if earlier == 0 {
            return self.compare_whole::<E>(a, b, space);
        }
        self.compare_behind::<E>(a, b, earlier, space)
    }

    /// The last place, before the end of what two texts share in front, that no contraction reaches
    /// over in either text; 0 where there is none.
    // From the front on: only there it is known where characters begin.
    fn last_fresh<E: Encoding>(&self, a: &[u8], b: &[u8], end: usize) -> usize
        requires set { E.set ≡ self.now.charset }
        requires within_first { end ≤ length a.now }
        requires within_second { end ≤ length b.now }
        requires shared { SharesFront self.now.charset a.now b.now end }
        ensures within_first { result ≤ length a.now }
        ensures within_second { result ≤ length b.now }
        ensures fresh { (result ≡ 0) ⊎ IsFreshFront E.set
            (set_contractions self.now.charset self.now.keys.entries) a.now b.now result }
    {
        chars_law();
        let mut last = 0;
        let mut at = 0;
        while at < end {
            let CharAt::Char { len, .. } = next_in::<E>(&a[at..]) else {
                return last;
            };
            if self.are_fresh::<E>(&a[at..], &b[at..]) {
                last = at;
            }
            at += len;
        }
        last
    }

    /// Whether no contraction of the set reaches into either text from what stands before it.
    #[inline(always)]
    fn are_fresh<E: Encoding>(&self, a: &[u8], b: &[u8]) -> bool
        ensures first { OnTrue result
            (IsFresh (set_contractions self.now.charset self.now.keys.entries)
            (chars E.set a.now)) }
        ensures second { OnTrue result
            (IsFresh (set_contractions self.now.charset self.now.keys.entries)
            (chars E.set b.now)) }
    {
        if !self.is_fresh::<E>(a) {
            return false;
        }
        self.is_fresh::<E>(b)
    }

    /// Whether no contraction of the set reaches into a text from what stands before it.
    #[inline(always)]
    pub(crate) fn is_fresh<E: Encoding>(&self, text: &[u8]) -> bool
        ensures { OnTrue result
            (IsFresh (set_contractions self.now.charset self.now.keys.entries)
            (chars E.set text.now)) }
    {
        match next_in::<E>(text) {
            CharAt::Char { code, .. } => !self.inner.at(code),
            CharAt::End => true,
            CharAt::Bad => true,
        }
    }

    /// The order by what is behind a shared front.
    fn compare_behind<E: Encoding>(&self, a: &[u8], b: &[u8], start: usize, space: u32) -> Ordering
        requires set { E.set ≡ self.now.charset }
        requires within_first { start ≤ length a.now }
        requires within_second { start ≤ length b.now }
        requires shared { SharesFront self.now.charset a.now b.now start }
        requires first { IsFresh (set_contractions self.now.charset self.now.keys.entries)
            (chars E.set (drop start a.now)) }
        requires second { IsFresh (set_contractions self.now.charset self.now.keys.entries)
            (chars E.set (drop start b.now)) }
        ensures { let m = uca_meaning self.now.charset self.now.kind self.now.keys in
            let flat = λ (text : List ℕ). flat_list m (chars m.charset text) in
            result ≡ list_order m.pad space (flat a.now) (flat b.now) }
    {
        order_laws();
        level_law();
        self.weights_law();
        self.compare_whole::<E>(&a[start..], &b[start..], space)
    }

    /// The order by all that both texts have: a level is only looked at where the one before it is
    /// equal.
    fn compare_whole<E: Encoding>(&self, a: &[u8], b: &[u8], space: u32) -> Ordering
        requires { E.set ≡ self.now.charset }
        ensures { let m = uca_meaning self.now.charset self.now.kind self.now.keys in
            let flat = λ (text : List ℕ). flat_list m (chars m.charset text) in
            result ≡ list_order m.pad space (flat a.now) (flat b.now) }
    {
        order_laws();
        self.weights_law();
        let count = self.kind.levels();
        let first = self.compare_on::<E>(a, b, 1, space);
        if count < 2 {
            return first;
        }
        let second = self.or_on::<E>(first, a, b, 2, space);
        if count < 3 {
            return second;
        }
        self.or_on::<E>(second, a, b, 3, space)
    }

    /// The order by the levels before, or, where they are equal, that on a level.
    fn or_on<E: Encoding>(
        &self,
        before: Ordering,
        a: &[u8],
        b: &[u8],
        level: u8,
        space: u32,
    ) -> Ordering
        requires { E.set ≡ self.now.charset }
        ensures { let list = uca_list self.now.charset self.now.kind self.now.keys level in
            result ≡ ordering_then before (list_order (pad_of self.now.kind) space
            (list (chars E.set a.now)) (list (chars E.set b.now))) }
    {
        match before {
            Ordering::Equal => self.compare_on::<E>(a, b, level, space),
            Ordering::Less => Ordering::Less,
            Ordering::Greater => Ordering::Greater,
        }
    }

    /// Each weight of a text is above the separator.
    fn weights_law(&self)
        ensures { (level : ℕ) (text : List ℕ) → All (λ weight. separator < weight)
            (uca_list self.now.charset self.now.kind self.now.keys level
            (chars self.now.charset text)) }
    {
        chars_law();
        level_law();
        elements_law(&self.keys, self.kind.family());
    }

    /// The order on a level.
    // Most characters have one weight on it and are pieces by themselves: as long as both texts
    // begin with such ones, no stream is made.
    #[tactic(auto, using(crate::proofs::Steps::steps))]
    fn compare_on<E: Encoding>(&self, a: &[u8], b: &[u8], level: u8, space: u32) -> Ordering
        requires { E.set ≡ self.now.charset }
        ensures { let list = uca_list self.now.charset self.now.kind self.now.keys level in
            result ≡ list_order (pad_of self.now.kind) space (list (chars E.set a.now))
            (list (chars E.set b.now)) }
    {
        let direct = self.direct.on(level);
        let mut left = a;
        let mut right = b;
        while let Some(first) = self.first_weight::<E>(direct, left) {
            let Some(second) = self.first_weight::<E>(direct, right) else {
                return self.compare_pieces::<E>(left, right, level, space);
            };
            if first.weight != second.weight {
                return first.weight.cmp(&second.weight);
            }
            left = first.behind;
            right = second.behind;
        }
        self.compare_pieces::<E>(left, right, level, space)
    }

    /// The order on a level, piece by piece.
    fn compare_pieces<E: Encoding>(&self, a: &[u8], b: &[u8], level: u8, space: u32) -> Ordering
        requires { E.set ≡ self.now.charset }
        ensures { let list = uca_list self.now.charset self.now.kind self.now.keys level in
            result ≡ list_order (pad_of self.now.kind) space (list (chars E.set a.now))
            (list (chars E.set b.now)) }
    {
        let mut left = TextWeights::<E>::new(self, a, level);
        let mut right = TextWeights::<E>::new(self, b, level);
        compare_streams(&mut left, &mut right, self.kind.pad(), space)
    }
}
