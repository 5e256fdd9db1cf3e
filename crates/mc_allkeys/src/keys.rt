ghost use Rattle.std.specs.Prelude.{◌≡◌, ◌≤◌, ◌<◌, ◌^◌, ◌++◌, ◌&&◌, ℕ, List as ListOf, [], ◌∷◌};
ghost use Rattle.std.specs.Prelude.{None, Some, true, false, length, take, nat_le, slice_index};
ghost use Rattle.std.specs.Prelude.{slice_index_or, IfOk, OnOk, MatchOption};
ghost use Rattle.std.specs.FinMap as map;
ghost use Rattle.std.specs.List.{All};
ghost use Rattle.mc_allkeys.specs.Keys.{entries_in};
ghost use Rattle.mc_allkeys.specs.Longest.{HasNoLonger, IsLongest};
ghost use Rattle.mc_allkeys.specs.Singles.{reach_in};
ghost use Rattle.mc_allkeys.specs.Sound.{HasWeights, IsSound};
ghost use Rattle.mc_allkeys.specs.Table.{contractions_of, implicit_of, start_of};

use crate::contractions::Contractions;
use crate::element::{Element, read_weights};
use crate::range::Range;
use crate::ranges::Ranges;
use crate::singles::Singles;
use mc_base::{List, NoMemory, Weights};
use std::alloc::Global;
use std::marker::Model;

/// A table of collation elements (UTS #10, 3): the entries of texts of one to six code points, and
/// the ranges of implicit weights. Contracts see the map of the entries, and the list of ranges.
#[derive(Drop)]
pub struct Keys {
    singles: Singles,
    contractions: Contractions,
    ranges: Ranges,
    ghost sized: { (text : ListOf ℕ) → map.contains_key contractions text ≡ true →
        (2 ≤ length text) × (length text ≤ 6) },
    ghost reaches: { (code : ℕ) (rest : ListOf ℕ) →
        map.contains_key contractions (code ∷ rest) ≡ true →
        length (code ∷ rest) ≤ reach_in singles code },
    ghost few: { map.len contractions < 2 ^ 32 },
    ghost sound: { IsSound
        (record { entries = entries_in singles contractions; ranges = ranges }) },
}

impl Model for Keys {
    ghost use Rattle.std.specs.Prelude.{List, refl};
    ghost use Rattle.std.specs.Coded.{code_by, coded×, coded_ℕ, coded_list};
    ghost use Rattle.std.specs.FinMap as map;
    ghost use Rattle.mc_allkeys.specs.Keys.{entries_in};
    ghost use Rattle.mc_allkeys.specs.Table.{ElementTable, Entries};
    ghost use Rattle.mc_allkeys.specs.contracts.element.Element as e;
    ghost use Rattle.mc_allkeys.specs.contracts.range.Range as r;
    ghost use Rattle.mc_allkeys.specs.declared.range.Range.{Range};

    ghost Value = { ElementTable };

    ghost coded = { code_by (Entries × List Range)
        (coded× (map.code (coded_list coded_ℕ) (coded_list e.the_row.coded))
        (coded_list r.the_row.coded))
        (λ table. (table.entries, table.ranges))
        (λ parts. record { entries = parts.0; ranges = parts.1 })
        (λ _. refl) };

    ghost view = { λ keys. record {
      entries = entries_in keys.singles keys.contractions;
      ranges = keys.ranges;
    } };
}

impl Keys {
    /// No entries and no ranges.
    pub(crate) fn new(alloc: Global) -> Result<Keys, NoMemory>
        ensures { IfOk result
            (λ keys. (keys.entries ≡ map.empty) × (keys.ranges ≡ [])) }
    {
        Ok(Keys {
            singles: Singles::new(alloc)?,
            contractions: Contractions::new(alloc),
            ranges: Ranges::new(alloc),
        })
    }

    /// The elements of a code point's entry; None where it has none.
    pub fn single(&self, c: u32) -> Option<&[Element]>
        ensures { MatchOption result (map.get self.now.entries (c ∷ []) ≡ None)
            (λ elements. map.get self.now.entries (c ∷ []) ≡ Some elements.now) }
    {
        self.singles.get(c)
    }

    /// The longest contraction that begins a text: how many code points it has, and its elements
    /// (UTS #10, S2.1); None where no contraction begins the text.
    pub fn longest(&self, text: &[u32]) -> Option<(usize, &[Element])>
        ensures { MatchOption result (HasNoLonger self.now.entries text.now 1)
            (λ found. IsLongest self.now.entries text.now found.0 found.1.now) }
    {
        let [first, ..] = text else {
            return None;
        };
        let reach = self.singles.reach(*first);
        if reach < 2 {
            return None;
        }
        self.contractions.longest(text, reach)
    }

    /// The base of a code point that a range of implicit weights covers, and its number from the
    /// start of that base; the first range that covers it decides (UTS #10, 10.1.3).
    pub fn implicit_base(&self, c: u32) -> Option<(u16, u32)>
        ensures { result ≡ implicit_of self.now.ranges c }
    {
        self.ranges.implicit_of(c)
    }

    /// How many contractions there are.
    pub fn contraction_count(&self) -> u32
        ensures { result ≡ length (contractions_of self.now.entries) }
    {
        self.contractions.len() as u32
    }

    /// One of the contractions, in the order of their code points.
    pub fn contraction(&self, i: u32) -> &[u32]
        requires { i < length (contractions_of self.now.entries) }
        ensures { result.now ≡ slice_index_or (contractions_of self.now.entries) i [] }
    {
        self.contractions.text(i as usize)
    }

    /// What holds of each table: texts of one to six code points, weights of two bytes.
    pub(crate) fn sound(&self)
        ensures { IsSound self.now }
    {
        let _count = self.contractions.len();
    }

    /// Whether a text has an entry.
    pub(crate) fn lists(&self, text: &[u32]) -> bool
        ensures { result ≡ map.contains_key self.now.entries text.now }
    {
        if text.len() == 1 {
            self.singles.get(text[0]).is_some()
        } else {
            self.contractions.get(text).is_some()
        }
    }

    /// Gives a text these elements, in place of those that it may have.
    pub(crate) fn put(
        &mut self,
        alloc: Global,
        text: &[u32],
        elements: &[Element],
    ) -> Result<(), NoMemory>
        requires some { 1 ≤ length text.now }
        requires short { length text.now ≤ 6 }
        requires codes { (k : ℕ) → slice_index text.now k ≤ 0x10FFFF }
        ensures entries { OnOk result
            (self.new.entries ≡ map.insert self.old.entries text.now elements.now) }
        ensures ranges { self.new.ranges ≡ self.old.ranges }
    {
        read_weights(elements);
        if text.len() == 1 {
            self.singles.put(text[0], elements)
        } else {
            self.put_long(alloc, text, elements)
        }
    }

    /// Gives a contraction these elements.
    fn put_long(
        &mut self,
        alloc: Global,
        text: &[u32],
        elements: &[Element],
    ) -> Result<(), NoMemory>
        requires long { 2 ≤ length text.now }
        requires short { length text.now ≤ 6 }
        requires codes { (k : ℕ) → slice_index text.now k ≤ 0x10FFFF }
        requires weights { All HasWeights elements.now }
        ensures entries { OnOk result
            (self.new.entries ≡ map.insert self.old.entries text.now elements.now) }
        ensures ranges { self.new.ranges ≡ self.old.ranges }
    {
        if self.contractions.len() >= u32::MAX as usize {
            return Err(NoMemory);
        }
        let key = Weights::from_slice(alloc, text)?;
        let elements = List::from_slice(alloc, elements)?;
        self.singles.note_reach(text[0], text.len())?;
        self.contractions.put(key, elements)
    }

    /// Appends a range.
    pub(crate) fn add_range(&mut self, range: Range) -> Result<(), NoMemory>
        ensures { OnOk result
            ((self.new.entries ≡ self.old.entries)
            × (self.new.ranges ≡ self.old.ranges ++ range ∷ [])) }
    {
        self.ranges.push(range)
    }

    /// Makes ready for the look-up of code points by the ranges; the table stays the same.
    pub(crate) fn index_ranges(&mut self) -> Result<(), NoMemory>
        ensures { self.new ≡ self.old }
    {
        self.ranges.index()
    }

    /// Where the numbering of a base starts: at the first code point of its first range, else at
    /// another one.
    pub(crate) fn start_of(&self, base: u16, other: u32) -> u32
        ensures { result ≡ start_of self.now.ranges base other }
    {
        self.ranges.start_of(base, other)
    }

    /// The same table.
    pub(crate) fn copy(&self, alloc: Global) -> Result<Keys, NoMemory>
        ensures { IfOk result (λ copy. copy ≡ self.now) }
    {
        let singles = self.singles.copy(alloc)?;
        let contractions = self.contractions.copy(alloc)?;
        let ranges = self.ranges.copy(alloc)?;
        Ok(Keys {
            singles,
            contractions,
            ranges,
        })
    }

    /// What it takes its memory from.
    pub(crate) fn allocator(&self) -> Global {
        self.ranges.allocator()
    }
}
