ghost use Rattle.std.specs.Prelude.{◌≡◌, ◌<◌, ◌≤◌, ℕ, List as ListOf, [], true, length, map};
ghost use Rattle.std.specs.Prelude.{option_map, slice_index_or, IsTrue, IfOk, OnOk, OnErr};
ghost use Rattle.std.specs.Prelude.{MatchOption, MatchResult};
ghost use Rattle.std.specs.FinMap as map;
ghost use Rattle.std.specs.FinMap.{is_sorted};
ghost use Rattle.mc_allkeys.specs.Longest.{HasNoLonger, IsLongest};
ghost use Rattle.mc_allkeys.specs.Places.{IsFoundAt, IsGapAt};
ghost use Rattle.mc_allkeys.specs.Texts.{text_cmp};

use crate::element::Element;
use mc_base::{List, NoMemory, Weights};
use std::alloc::Global;
use std::cmp::Ordering;
use std::marker::Model;

/// Contractions and their elements, in the order of the texts. Contracts see the map of them.
#[derive(Drop)]
pub(crate) struct Contractions {
    entries: Vec<(Weights, List<Element>)>,
    ghost sorted: { IsTrue (is_sorted text_cmp entries.items) },
}

impl Model for Contractions {
    ghost use Rattle.std.specs.Prelude.{ℕ, List};
    ghost use Rattle.std.specs.FinMap as map;
    ghost use Rattle.std.specs.Coded.{coded_ℕ, coded_list};
    ghost use Rattle.mc_allkeys.specs.contracts.element.Element as e;
    ghost use Rattle.mc_allkeys.specs.Texts.{text_cmp};
    ghost use Rattle.mc_allkeys.specs.declared.element.Element.{Element};

    ghost Value = { map.FinMap text_cmp (List Element) };

    ghost coded = { map.code (coded_list coded_ℕ) (coded_list e.the_row.coded) };

    ghost view = { λ contractions. map.from_sorted contractions.entries.items };
}

impl Contractions {
    /// No contractions.
    pub(crate) fn new(alloc: Global) -> Contractions
        ensures { result ≡ map.empty }
    {
        Contractions {
            entries: Vec::new(alloc),
        }
    }

    /// The same contractions.
    pub(crate) fn copy(&self, alloc: Global) -> Result<Contractions, NoMemory>
        ensures { IfOk result (λ copy. copy ≡ self.now) }
    {
        Ok(Contractions {
            entries: copy_entries(alloc, self.entries.as_slice())?,
        })
    }

    /// How many there are.
    pub(crate) fn len(&self) -> usize
        ensures { result ≡ map.len self.now }
    {
        self.entries.len()
    }

    /// One of them, in the order of the texts.
    pub(crate) fn text(&self, place: usize) -> &[u32]
        requires { place < map.len self.now }
        ensures { result.now ≡ slice_index_or (map.keys self.now) place [] }
    {
        self.entries[place].0.as_slice()
    }

    /// The elements of a text.
    pub(crate) fn get(&self, text: &[u32]) -> Option<&[Element]>
        ensures { MatchOption result (map.get self.now text.now ≡ None)
            (λ elements. map.get self.now text.now ≡ Some elements.now) }
    {
        match place(self.entries.as_slice(), text) {
            Ok(found) => Some(self.entries[found].1.as_slice()),
            Err(_) => None,
        }
    }

    /// Gives a text these elements.
    pub(crate) fn put(&mut self, text: Weights, elements: List<Element>) -> Result<(), NoMemory>
        ensures ok { OnOk result (self.new ≡ map.insert self.old text elements) }
        ensures err { OnErr result (self.new ≡ self.old) }
    {
        match place(self.entries.as_slice(), text.as_slice()) {
            Ok(found) => self.entries[found].1 = elements,
            Err(gap) => self.entries.insert(gap, (text, elements))?,
        }
        Ok(())
    }

    /// The longest one that begins a text, and its elements, where none of more than `most` code
    /// points does.
    pub(crate) fn longest(&self, text: &[u32], most: usize) -> Option<(usize, &[Element])>
        requires { HasNoLonger self.now text.now most }
        ensures { MatchOption result (HasNoLonger self.now text.now 1)
            (λ found. IsLongest self.now text.now found.0 found.1.now) }
    {
        let mut len = text.len().min(most);
        while len >= 2 {
            if let Some(elements) = self.get(&text[..len]) {
                return Some((len, elements));
            }
            len -= 1;
        }
        None
    }
}

/// The same texts and elements.
fn copy_entries(
    alloc: Global,
    entries: &[(Weights, List<Element>)],
) -> Result<Vec<(Weights, List<Element>)>, NoMemory>
    ensures { IfOk result (λ copy. copy.items ≡ entries.now) }
{
    let mut copy = Vec::new(alloc);
    for entry in entries {
        let text = Weights::from_slice(alloc, entry.0.as_slice())?;
        let elements = List::from_slice(alloc, entry.1.as_slice())?;
        copy.push((text, elements))?;
    }
    Ok(copy)
}

/// Where a text stands among entries in order, or where it would have to.
fn place(entries: &[(Weights, List<Element>)], text: &[u32]) -> Result<usize, usize>
    requires { is_sorted text_cmp entries.now ≡ true }
    ensures { MatchResult result (IsFoundAt entries.now text.now) (IsGapAt entries.now text.now) }
{
    let mut low = 0;
    let mut high = entries.len();
    while low < high {
        let middle = low + (high - low) / 2;
        match entries[middle].0.as_slice().cmp(text) {
            Ordering::Equal => return Ok(middle),
            Ordering::Less => low = middle + 1,
            Ordering::Greater => high = middle,
        }
    }
    Err(low)
}
