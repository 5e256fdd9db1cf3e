ghost use Rattle.mc_rules.specs.Elements.{elements_of};
ghost use Rattle.mc_rules.specs.Outside.{jamo_elements};
ghost use Rattle.mc_rules.specs.Unlisted.{elements_by};
ghost use Rattle.mc_uca.specs.Streams.{jamo_count, jamo_left, pending_left};
ghost use Rattle.std.specs.List.{flat_map};
ghost use Rattle.std.specs.Option.{option_to_list};
ghost use Rattle.std.specs.Prelude.{◌≡◌, ◌++◌, ◌∷◌, ◌≤◌, ◌<◌, ◌+◌, [], length, true, None};
ghost use Rattle.std.specs.Prelude.{MatchOption};
ghost use Rattle.std.specs.Bool.{OnTrue, OnFalse};

use crate::stream::ElementStream;
use mc_allkeys::{Element, Keys};
use mc_rules::{Syllable, UcaFamily, Unlisted, unlisted_jamo, unlisted_of};

/// The elements of a piece that are still to come: listed ones, up to two others, and those of up
/// to two jamo.
#[derive(Clone, Copy, Drop)]
pub(crate) struct Pending<'a> {
    keys: &'a Keys,
    listed: &'a [Element],
    first: Option<Element>,
    second: Option<Element>,
    vowel: Option<u16>,
    trailing: Option<u16>,
}

impl<'a> ElementStream for Pending<'a> {
    ghost left = { pending_left };

    fn next_element(&mut self) -> Option<Element> {
        loop {
            if let Some(element) = self.at_hand() {
                return Some(element);
            }
            if !self.load_jamo() {
                return None;
            }
        }
    }
}

impl<'a> Pending<'a> {
    /// Listed elements.
    pub(crate) fn listed(keys: &'a Keys, listed: &'a [Element]) -> Pending<'a>
        ensures { pending_left result ≡ listed.now }
    {
        Pending {
            keys,
            listed,
            first: None,
            second: None,
            vowel: None,
            trailing: None,
        }
    }

    /// The elements of a character by itself.
    pub(crate) fn of_char(keys: &'a Keys, family: UcaFamily, code: u32) -> Pending<'a>
        requires { code ≤ 0x10FFFF }
        ensures { pending_left result ≡ elements_of keys.now family (code ∷ []) }
    {
        match keys.single(code) {
            Some(elements) => Pending::listed(keys, elements),
            None => Pending::unlisted(keys, unlisted_of(keys, family, code)),
        }
    }

    /// The elements of a code point without an entry.
    pub(crate) fn unlisted(keys: &'a Keys, elements: Unlisted) -> Pending<'a>
        ensures { pending_left result ≡ elements_by keys.now.entries elements }
    {
        match elements {
            Unlisted::One(element) => Pending::few(keys, Some(element), None),
            Unlisted::Pair(first, second) => Pending::few(keys, Some(first), Some(second)),
            Unlisted::Syllable(jamo) => Pending::syllable(keys, jamo),
        }
    }

    /// Up to two elements.
    fn few(keys: &'a Keys, first: Option<Element>, second: Option<Element>) -> Pending<'a>
        ensures { pending_left result ≡ option_to_list first ++ option_to_list second }
    {
        Pending {
            keys,
            listed: &[],
            first,
            second,
            vowel: None,
            trailing: None,
        }
    }

    /// The elements of a syllable's jamo.
    fn syllable(keys: &'a Keys, jamo: Syllable) -> Pending<'a>
        ensures { pending_left result ≡ flat_map (jamo_elements keys.now.entries)
            (jamo.leading ∷ jamo.vowel ∷ option_to_list jamo.trailing) }
    {
        let mut pending = Pending {
            keys,
            listed: &[],
            first: None,
            second: None,
            vowel: Some(jamo.vowel),
            trailing: jamo.trailing,
        };
        pending.load(jamo.leading);
        pending
    }

    /// The next of the elements that are at hand.
    fn at_hand(&mut self) -> Option<Element>
        ensures { MatchOption result
            ((self.new ≡ self.old) × (self.old.listed.now ≡ [])
            × (self.old.first ≡ None) × (self.old.second ≡ None))
            (λ element. pending_left self.old ≡ element ∷ pending_left self.new) }
    {
        if let [element, behind @ ..] = self.listed {
            self.listed = behind;
            return Some(*element);
        }
        if let Some(element) = self.first {
            self.first = None;
            return Some(element);
        }
        let second = self.second;
        self.second = None;
        second
    }

    /// Takes the next jamo's elements to hand; whether there was one.
    fn load_jamo(&mut self) -> bool
        requires listed { self.old.listed.now ≡ [] }
        requires first { self.old.first ≡ None }
        requires second { self.old.second ≡ None }
        ensures some { OnTrue result (pending_left self.new ≡ pending_left self.old) }
        ensures fewer { OnTrue result (jamo_count self.new < jamo_count self.old) }
        ensures none { OnFalse result (pending_left self.old ≡ []) }
        ensures gone { OnFalse result (pending_left self.new ≡ []) }
    {
        if let Some(vowel) = self.vowel {
            self.vowel = None;
            self.load(vowel);
            return true;
        }
        if let Some(trailing) = self.trailing {
            self.trailing = None;
            self.load(trailing);
            return true;
        }
        false
    }

    /// Takes a jamo's elements to hand, where none are.
    fn load(&mut self, jamo: u16)
        requires listed { self.old.listed.now ≡ [] }
        requires first { self.old.first ≡ None }
        requires second { self.old.second ≡ None }
        ensures at_hand { self.new.listed.now ++ option_to_list self.new.first
            ++ option_to_list self.new.second ≡ jamo_elements self.old.keys.now.entries jamo }
        ensures keys { self.new.keys ≡ self.old.keys }
        ensures vowel { self.new.vowel ≡ self.old.vowel }
        ensures trailing { self.new.trailing ≡ self.old.trailing }
    {
        match self.keys.single(u32::from(jamo)) {
            Some(elements) => self.listed = elements,
            None => {
                let (first, second) = unlisted_jamo(jamo);
                self.first = Some(first);
                self.second = Some(second);
            }
        }
    }
}
