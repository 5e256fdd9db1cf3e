ghost use Rattle.mc_index.specs.Digits.{binary_digits};
ghost use Rattle.mc_index.specs.Entries.{AreApart, AreOrdered, rows_of};
ghost use Rattle.mc_index.specs.Held.{AreKeyed, seen, seen_index};
ghost use Rattle.mc_index.specs.Places.{IsBoundOf, count_between, end_place, first_place, numbers};
ghost use Rattle.mc_index.specs.Places.{place_of};
ghost use Rattle.std.specs.Prelude.{◌≡◌, ◌<◌, ◌≤◌, ◌+◌, ◌*◌, IfSome, length, map, slice_index};

use crate::Side;
use crate::entry::Entry;
use crate::halving::passed_len;
use mc_base::Steps;
use mc_key::Bound;
use mc_order::{Pad, order_laws};
use std::marker::Model;

/// The entries of an index, which contracts see in order: by key, and by row where keys are equal.
#[derive(Drop)]
pub struct Index {
    entries: Vec<Entry>,
    pad: Pad,
    space: u32,
}

impl Model for Index {
    ghost use Rattle.mc_index.specs.Entries.{AreApart, AreOrdered, SeenIndex};
    ghost use Rattle.mc_index.specs.Held.{AreKeyed, seen, seen_index};
    ghost use Rattle.std.specs.Prelude.{map};

    ghost Value = { SeenIndex };

    ghost view = { λ index. seen_index index.pad index.space index.entries.items };

    ghost invariant = { λ index.
        AreKeyed index.pad index.space index.entries.items
        × AreApart (map seen index.entries.items)
        × AreOrdered (seen_index index.pad index.space index.entries.items) };
}

impl Index {
    /// The index of sorted entries.
    pub(crate) fn of_sorted(entries: Vec<Entry>, pad: Pad, space: u32) -> Index
        requires keyed { AreKeyed pad space entries.items }
        requires apart { AreApart (map seen entries.items) }
        requires ordered { AreOrdered (seen_index pad space entries.items) }
        ensures { result ≡ seen_index pad space entries.items }
    {
        Index {
            entries,
            pad,
            space,
        }
    }

    /// The entries ascend, and have a row each.
    pub(crate) fn order_law(&self)
        ensures ordered { AreOrdered self.now }
        ensures apart { AreApart self.now.entries }
    {
        let _ = &self.entries;
    }

    /// How many entries it has.
    pub fn len(&self) -> usize
        ensures { result ≡ length self.now.entries }
    {
        self.entries.len()
    }

    /// The row of the entry at a place, from 0.
    pub fn row_at(&self, place: usize) -> u32
        requires { place < length self.now.entries }
        ensures { result ≡ slice_index (rows_of self.now.entries) place }
    {
        self.entries[place].row
    }

    /// Where a bound stands: the number of entries whose key is below it, or (After) not above it.
    /// It compares keys, each for a tick, at most as often as `len()` has binary digits, and takes
    /// no memory.
    pub fn seek<W>(&self, bound: &Bound, side: Side, work: &mut Steps<W>) -> usize
        requires { IsBoundOf self.now bound.now }
        ensures place { result ≡ place_of self.now bound.now.numbers side }
        ensures later { work.old ≤ work.new }
        ensures work { work.new ≤ work.old + binary_digits (length self.now.entries) }
    {
        order_laws();
        passed_len(&self.entries, bound, side, work)
    }

    /// The number of entries from `lo` to `hi`, both included; an absent end is open. It is 0 where
    /// `lo` is above `hi`. It seeks each end, and takes no memory.
    pub fn count_in<W>(&self, lo: Option<&Bound>, hi: Option<&Bound>, work: &mut Steps<W>) -> usize
        requires lo { IfSome lo (λ bound. IsBoundOf self.now bound.now) }
        requires hi { IfSome hi (λ bound. IsBoundOf self.now bound.now) }
        ensures count { result ≡ count_between self.now (numbers lo.entry) (numbers hi.entry) }
        ensures later { work.old ≤ work.new }
        ensures work { work.new ≤ work.old + 2 * binary_digits (length self.now.entries) }
    {
        order_laws();
        self.order_law();
        let first = self.first_place(lo, work);
        let end = self.end_place(hi, work);
        end.saturating_sub(first)
    }

    /// Where the entries begin that are not below a lower end.
    fn first_place<W>(&self, lo: Option<&Bound>, work: &mut Steps<W>) -> usize
        requires { IfSome lo (λ bound. IsBoundOf self.now bound.now) }
        ensures place { result ≡ first_place self.now (numbers lo.entry) }
        ensures later { work.old ≤ work.new }
        ensures work { work.new ≤ work.old + binary_digits (length self.now.entries) }
    {
        match lo {
            Some(lo) => self.seek(lo, Side::Before, work),
            None => 0,
        }
    }

    /// Where the entries have ended that are not above an upper end.
    fn end_place<W>(&self, hi: Option<&Bound>, work: &mut Steps<W>) -> usize
        requires { IfSome hi (λ bound. IsBoundOf self.now bound.now) }
        ensures place { result ≡ end_place self.now (numbers hi.entry) }
        ensures later { work.old ≤ work.new }
        ensures work { work.new ≤ work.old + binary_digits (length self.now.entries) }
    {
        match hi {
            Some(hi) => self.seek(hi, Side::After, work),
            None => self.len(),
        }
    }
}
