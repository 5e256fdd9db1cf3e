ghost use Rattle.mc_allkeys.specs.Table.{contractions_of};
ghost use Rattle.mc_order.specs.Tails.{fronts, insert_list, proper_prefixes, tails_of};
ghost use Rattle.mc_uca.specs.Inserts.{tails_with, AreAscending, IsPlace};
ghost use Rattle.mc_uca.specs.Weighing.{is_of_set, set_contractions, uca_list};
ghost use Rattle.std.specs.Prelude.{◌≡◌, ◌≤◌, ◌<◌, ◌+◌, ℕ, ◌∷◌, true};
ghost use Rattle.std.specs.Prelude.{[], drop, filter, length, IfOk, OnOk, MatchOption};

use crate::weigher::Weigher;
use mc_allkeys::longest_law;
use mc_base::{NoMemory, Weights};
use mc_charset::{Charset, has_char};
use mc_order::{Pad, compare_lists, order_laws};
use std::alloc::Global;
use std::cmp::Ordering;

/// Whether the set has each of these characters.
pub(crate) fn is_of_set(charset: Charset, codes: &[u32]) -> bool
    ensures { result ≡ is_of_set charset codes.now }
{
    codes.iter().all(|code| has_char(charset, *code))
}

impl Weigher {
    /// The tails of the set's contractions: the first lists of their proper prefixes, in
    /// lexicographic order, each once.
    // From the last contraction to the first one, as `tails_of` puts them in.
    pub(crate) fn tails(&self, alloc: Global) -> Result<Vec<Weights>, NoMemory>
        ensures { IfOk result (λ tails. tails.items
            ≡ tails_of (uca_list self.now.charset self.now.kind self.now.keys 1)
            (set_contractions self.now.charset self.now.keys.entries)) }
    {
        let mut tails = Vec::new(alloc);
        let mut place = self.keys.contraction_count();
        while place > 0 {
            place -= 1;
            self.put_tails_at(alloc, place, &mut tails)?;
        }
        Ok(tails)
    }

    /// Puts the tails of the contraction at a place among those of the contractions behind it.
    fn put_tails_at(
        &self,
        alloc: Global,
        place: u32,
        tails: &mut Vec<Weights>,
    ) -> Result<(), NoMemory>
        requires within { place < length (contractions_of self.now.keys.entries) }
        requires ascending { AreAscending tails.old.items }
        ensures { let from = λ (k : ℕ).
            tails_of (uca_list self.now.charset self.now.kind self.now.keys 1)
            (filter (is_of_set self.now.charset)
            (drop k (contractions_of self.now.keys.entries))) in
            OnOk result (tails.old.items ≡ from (place + 1) → tails.new.items ≡ from place) }
    {
        longest_law();
        let text = self.keys.contraction(place);
        if !is_of_set(self.charset, text) {
            return Ok(());
        }
        self.put_tails(alloc, text, tails)?;
        Ok(())
    }

    /// Puts the first lists of a contraction's proper prefixes among tails.
    fn put_tails(
        &self,
        alloc: Global,
        text: &[u32],
        tails: &mut Vec<Weights>,
    ) -> Result<(), NoMemory>
        requires of_set { is_of_set self.now.charset text.now ≡ true }
        requires some { 1 ≤ length text.now }
        requires ascending { AreAscending tails.old.items }
        ensures { OnOk result (tails.new.items
            ≡ tails_with (uca_list self.now.charset self.now.kind self.now.keys 1)
            (proper_prefixes text.now) tails.old.items) }
    {
        let mut len = text.len();
        while len > 1 {
            len -= 1;
            self.put_tail(alloc, &text[..len], tails)?;
        }
        Ok(())
    }

    /// Puts the first list of a prefix among tails, if it has a weight.
    #[tactic(auto, using(crate::proofs::TailSteps::one_prefix))]
    fn put_tail(
        &self,
        alloc: Global,
        prefix: &[u32],
        tails: &mut Vec<Weights>,
    ) -> Result<(), NoMemory>
        requires of_set { is_of_set self.now.charset prefix.now ≡ true }
        requires ascending { AreAscending tails.old.items }
        ensures { OnOk result (tails.new.items
            ≡ tails_with (uca_list self.now.charset self.now.kind self.now.keys 1)
            (prefix.now ∷ []) tails.old.items) }
    {
        let list = self.first_list(alloc, prefix)?;
        if list.is_empty() {
            return Ok(());
        }
        insert_list(tails, list)
    }
}

/// Puts a list in its place among ascending ones; one that is there stays once.
pub(crate) fn insert_list(lists: &mut Vec<Weights>, list: Weights) -> Result<(), NoMemory>
    requires { AreAscending lists.old.items }
    ensures { OnOk result (lists.new.items ≡ insert_list list lists.old.items) }
{
    if let Some(place) = place_of(lists.as_slice(), list.as_slice()) {
        lists.insert(place, list)?;
    }
    Ok(())
}

/// Where a list has to be put among ascending ones; None where it is one of them.
fn place_of(lists: &[Weights], list: &[u32]) -> Option<usize>
    requires { AreAscending lists.now }
    ensures { MatchOption result (insert_list list.now lists.now ≡ lists.now)
        (λ place. IsPlace list.now lists.now place) }
{
    order_laws();
    let mut low = 0;
    let mut high = lists.len();
    while low < high {
        let middle = low + (high - low) / 2;
        match compare_lists(list, lists[middle].as_slice(), Pad::NoPad, 0) {
            Ordering::Less => high = middle,
            Ordering::Equal => return None,
            Ordering::Greater => low = middle + 1,
        }
    }
    Some(low)
}
