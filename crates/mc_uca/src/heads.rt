ghost use Rattle.mc_allkeys.specs.Table.{contractions_of};
ghost use Rattle.mc_order.specs.Meaning.{flat_list, IsSafe};
ghost use Rattle.mc_order.specs.Order.{list_order};
ghost use Rattle.mc_order.specs.Tails.{insert_list};
ghost use Rattle.mc_order.specs.declared.pad.Pad.TheVariants.{NoPad as Unpadded};
ghost use Rattle.mc_uca.specs.Heads.{heads_of};
ghost use Rattle.mc_uca.specs.Inserts.{AreAscending};
ghost use Rattle.mc_uca.specs.UcaMeaning.{uca_meaning};
ghost use Rattle.mc_uca.specs.Weighing.{is_of_set, set_contractions};
ghost use Rattle.std.specs.List.{All, Contains};
ghost use Rattle.std.specs.Option.{option_map_or};
ghost use Rattle.std.specs.Prelude.{◌≡◌, ◌↔◌, ◌≤◌, ◌<◌, ◌+◌, ◌++◌, ◌∷◌, ℕ, [], drop, filter};
ghost use Rattle.std.specs.Prelude.{length, slice_index_or, IsTrue, IfOk, OnOk};

use crate::flat::FlatWeights;
use crate::pending::Pending;
use crate::tails::{insert_list, is_of_set};
use crate::weigher::Weigher;
use mc_allkeys::{keys_law, longest_law};
use mc_base::{NoMemory, Weights};
use mc_order::{Pad, WeightStream, compare_streams, order_laws, put_weights};
use std::alloc::Global;
use std::cmp::Ordering;

/// The weights of a list, and then those of a character.
#[derive(Drop)]
struct ListOrChar<'a> {
    list: &'a [u32],
    char: Option<FlatWeights<Pending<'a>>>,
}

impl<'a> WeightStream for ListOrChar<'a> {
    ghost left = { λ weights. weights.list.now ++ option_map_or
        ⟦<FlatWeights<Pending<'a>> as WeightStream>⟧.left weights.char [] };

    fn next_weight(&mut self) -> Option<u32> {
        if let [weight, behind @ ..] = self.list {
            self.list = behind;
            return Some(*weight);
        }
        match &mut self.char {
            Some(weights) => weights.next_weight(),
            None => None,
        }
    }
}

impl Weigher {
    /// The flat lists of the characters that begin contractions of the set, in lexicographic order,
    /// each once.
    // From the last contraction to the first one, as `heads_of` puts them in.
    pub(crate) fn heads(&self, alloc: Global) -> Result<Vec<Weights>, NoMemory>
        ensures { let m = uca_meaning self.now.charset self.now.kind self.now.keys in
            IfOk result (λ heads. heads.items ≡ heads_of (flat_list m)
            (set_contractions self.now.charset self.now.keys.entries)) }
    {
        let mut heads = Vec::new(alloc);
        let mut place = self.keys.contraction_count();
        while place > 0 {
            place -= 1;
            self.put_head_at(alloc, place, &mut heads)?;
        }
        Ok(heads)
    }

    /// Puts the flat list of the first character of the contraction at a place among those of the
    /// contractions behind it.
    fn put_head_at(
        &self,
        alloc: Global,
        place: u32,
        heads: &mut Vec<Weights>,
    ) -> Result<(), NoMemory>
        requires within { place < length (contractions_of self.now.keys.entries) }
        requires ascending { AreAscending heads.old.items }
        ensures { let m = uca_meaning self.now.charset self.now.kind self.now.keys in
            let from = λ (k : ℕ). heads_of (flat_list m) (filter (is_of_set self.now.charset)
            (drop k (contractions_of self.now.keys.entries))) in
            OnOk result (heads.old.items ≡ from (place + 1) → heads.new.items ≡ from place) }
    {
        keys_law(&self.keys);
        longest_law();
        let text = self.keys.contraction(place);
        if !is_of_set(self.charset, text) {
            return Ok(());
        }
        self.put_head(alloc, text, heads)
    }

    /// Puts the flat list of a text's first character in its place among ascending lists.
    fn put_head(
        &self,
        alloc: Global,
        text: &[u32],
        heads: &mut Vec<Weights>,
    ) -> Result<(), NoMemory>
        requires codes { All (λ code. code ≤ 0x10FFFF) text.now }
        requires some { 1 ≤ length text.now }
        requires ascending { AreAscending heads.old.items }
        ensures { let m = uca_meaning self.now.charset self.now.kind self.now.keys in
            OnOk result (heads.new.items ≡ insert_list
            (flat_list m (slice_index_or text.now 0 0 ∷ [])) heads.old.items) }
    {
        let list = self.char_list(alloc, text[0])?;
        insert_list(heads, list)
    }

    /// The flat list of a character.
    fn char_list(&self, alloc: Global, code: u32) -> Result<Weights, NoMemory>
        requires { code ≤ 0x10FFFF }
        ensures { let m = uca_meaning self.now.charset self.now.kind self.now.keys in
            IfOk result (λ list. list ≡ flat_list m (code ∷ [])) }
    {
        let mut list = Weights::new(alloc);
        put_weights(&mut self.char_weights(code), &mut list)?;
        Ok(list)
    }

    /// Whether no character that begins a contraction of the set has the weights of this one.
    pub(crate) fn is_safe(&self, heads: &[Weights], c: u32) -> bool
        requires is_code { c ≤ 0x10FFFF }
        requires heads { let m = uca_meaning self.now.charset self.now.kind self.now.keys in
            heads.now ≡ heads_of (flat_list m)
            (set_contractions self.now.charset self.now.keys.entries) }
        ensures { IsTrue result
            ↔ IsSafe (uca_meaning self.now.charset self.now.kind self.now.keys) c }
    {
        longest_law();
        !self.is_list_of(heads, c)
    }

    /// Whether one of ascending lists is the flat list of a character.
    fn is_list_of(&self, lists: &[Weights], c: u32) -> bool
        requires is_code { c ≤ 0x10FFFF }
        requires ascending { AreAscending lists.now }
        ensures { let m = uca_meaning self.now.charset self.now.kind self.now.keys in
            IsTrue result ↔ Contains lists.now (flat_list m (c ∷ [])) }
    {
        order_laws();
        let mut low = 0;
        let mut high = lists.len();
        while low < high {
            let middle = low + (high - low) / 2;
            match self.order_with(c, lists[middle].as_slice()) {
                Ordering::Less => high = middle,
                Ordering::Equal => return true,
                Ordering::Greater => low = middle + 1,
            }
        }
        false
    }

    /// The order of a character's flat list and a list.
    fn order_with(&self, c: u32, list: &[u32]) -> Ordering
        requires { c ≤ 0x10FFFF }
        ensures { let m = uca_meaning self.now.charset self.now.kind self.now.keys in
            result ≡ list_order Unpadded 0 (flat_list m (c ∷ [])) list.now }
    {
        let mut left = ListOrChar {
            list: &[],
            char: Some(self.char_weights(c)),
        };
        let mut right = ListOrChar { list, char: None };
        compare_streams(&mut left, &mut right, Pad::NoPad, 0)
    }
}
