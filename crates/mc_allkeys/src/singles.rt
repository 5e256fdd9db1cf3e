ghost use Rattle.std.specs.Prelude.{◌≡◌, ◌==◌, ◌≤◌, ◌<◌, ℕ, List, [], Some, None};
ghost use Rattle.std.specs.Prelude.{length, option_map, if◌then◌else◌, IfOk, OnOk, OnErr};
ghost use Rattle.std.specs.Prelude.{MatchOption};
ghost use Rattle.std.specs.Option.{option_map_or};
ghost use Rattle.mc_allkeys.specs.Cells.{cell_at, part_of, IsPartOf};
ghost use Rattle.mc_allkeys.specs.Singles.{single_in, reach_in};

use crate::element::Element;
use crate::page::{Cell, NO_CELL, Page, Part};
use mc_base::NoMemory;
use std::alloc::Global;
use std::marker::Model;

/// How many pages there are: one for each 256 of the code points up to 10FFFF.
const PAGE_COUNT: usize = 0x1100;

/// The elements of single code points, found by a page and a place in it. All elements stand in one
/// list.
#[derive(Drop)]
pub(crate) struct Singles {
    pages: Vec<Page>,
    elements: Vec<Element>,
    ghost all_pages: { length pages.items ≡ 0x1100 },
    ghost within: { (code : ℕ) → IsPartOf (length elements.items) (cell_at pages.items code).part },
}

impl Model for Singles {
    ghost use Rattle.mc_allkeys.specs.Singles.{Store};

    ghost Value = { Store };

    ghost view = { λ singles. record {
      pages = singles.pages.items;
      shared = singles.elements.items;
    } };
}

impl Singles {
    /// No entries.
    #[tactic(auto, unfolding(crate::specs::Singles::single_in, crate::specs::Singles::reach_in))]
    pub(crate) fn new(alloc: Global) -> Result<Singles, NoMemory>
        ensures none { IfOk result (λ singles. (code : ℕ) → single_in singles code ≡ None) }
        ensures no_reach { IfOk result (λ singles. (code : ℕ) → reach_in singles code ≡ 1) }
    {
        let mut pages = Vec::new(alloc);
        for _ in 0..PAGE_COUNT {
            pages.push(Page::new(alloc))?;
        }
        Ok(Singles {
            pages,
            elements: Vec::new(alloc),
        })
    }

    /// The same entries and marks.
    pub(crate) fn copy(&self, alloc: Global) -> Result<Singles, NoMemory>
        ensures { IfOk result (λ copy. copy ≡ self.now) }
    {
        let pages = copy_pages(alloc, self.pages.as_slice())?;
        let elements = Vec::from_slice(alloc, self.elements.as_slice())?;
        Ok(Singles { pages, elements })
    }

    /// The elements of a code point's entry.
    #[tactic(auto, unfolding(crate::specs::Singles::single_in, crate::specs::Singles::reach_in))]
    pub(crate) fn get(&self, code: u32) -> Option<&[Element]>
        ensures { MatchOption result (single_in self.now code ≡ None)
            (λ elements. single_in self.now code ≡ Some elements.now) }
    {
        let part = self.cell(code).part?;
        let start = part.start as usize;
        Some(&self.elements[start..start + part.len as usize])
    }

    /// How many code points the contractions have, at most, that begin with a code point; 1 where
    /// none does.
    #[tactic(auto, unfolding(crate::specs::Singles::single_in, crate::specs::Singles::reach_in))]
    pub(crate) fn reach(&self, code: u32) -> usize
        ensures { result ≡ reach_in self.now code }
    {
        self.cell(code).reach as usize
    }

    /// Notes how many code points a contraction has that begins with a code point.
    #[tactic(auto, unfolding(crate::specs::Singles::single_in, crate::specs::Singles::reach_in))]
    pub(crate) fn note_reach(&mut self, code: u32, len: usize) -> Result<(), NoMemory>
        requires is_code { code ≤ 0x10FFFF }
        requires short { len ≤ 6 }
        ensures entries { (c : ℕ) → single_in self.new c ≡ single_in self.old c }
        ensures kept { (c : ℕ) → reach_in self.old c ≤ reach_in self.new c }
        ensures noted { OnOk result (len ≤ reach_in self.new code) }
    {
        if len <= self.reach(code) {
            return Ok(());
        }
        let cell = Cell {
            reach: len as u8,
            ..self.cell(code)
        };
        self.put_cell(code, cell)
    }

    /// Gives a code point these elements.
    #[tactic(auto, unfolding(crate::specs::Singles::single_in, crate::specs::Singles::reach_in))]
    pub(crate) fn put(&mut self, code: u32, elements: &[Element]) -> Result<(), NoMemory>
        requires { code ≤ 0x10FFFF }
        ensures entries { OnOk result ((c : ℕ) → single_in self.new c
            ≡ (if c == code then Some elements.now else single_in self.old c)) }
        ensures unchanged { OnErr result
            ((c : ℕ) → single_in self.new c ≡ single_in self.old c) }
        ensures reach { (c : ℕ) → reach_in self.new c ≡ reach_in self.old c }
    {
        let part = self.append(elements)?;
        let cell = Cell {
            part: Some(part),
            ..self.cell(code)
        };
        self.put_cell(code, cell)
    }

    /// The cell of a code point.
    fn cell(&self, code: u32) -> Cell
        ensures cell { result ≡ cell_at self.now.pages code }
        ensures within { IsPartOf (length self.now.shared) result.part }
    {
        let number = code as usize / 256;
        if number < self.pages.len() {
            self.pages[number].cell(code as usize % 256)
        } else {
            NO_CELL
        }
    }

    /// Puts a cell in a code point's place; the others stay.
    fn put_cell(&mut self, code: u32, cell: Cell) -> Result<(), NoMemory>
        requires is_code { code ≤ 0x10FFFF }
        requires within { IsPartOf (length self.old.shared) cell.part }
        ensures cells { OnOk result ((c : ℕ) → cell_at self.new.pages c
            ≡ (if c == code then cell else cell_at self.old.pages c)) }
        ensures unchanged { OnErr result
            ((c : ℕ) → cell_at self.new.pages c ≡ cell_at self.old.pages c) }
        ensures elements { self.new.shared ≡ self.old.shared }
    {
        let page = &mut self.pages[code as usize / 256];
        page.put(code as usize % 256, cell)
    }

    /// Appends elements to those that the cells share; where they stand.
    fn append(&mut self, elements: &[Element]) -> Result<Part, NoMemory>
        ensures part { IfOk result
            (λ part. part_of self.new.shared part ≡ elements.now) }
        ensures within { IfOk result
            (λ part. IsPartOf (length self.new.shared) (Some part)) }
        ensures entries { (c : ℕ) → single_in self.new c ≡ single_in self.old c }
        ensures reach { (c : ℕ) → reach_in self.new c ≡ reach_in self.old c }
    {
        let start = count(self.elements.len())?;
        let len = count(elements.len())?;
        self.elements.extend_from_slice(elements)?;
        Ok(Part { start, len })
    }
}

/// Pages of the same cells.
fn copy_pages(alloc: Global, pages: &[Page]) -> Result<Vec<Page>, NoMemory>
    ensures { IfOk result (λ copy. copy.items ≡ pages.now) }
{
    let mut copy = Vec::new(alloc);
    for page in pages {
        copy.push(page.copy(alloc)?)?;
    }
    Ok(copy)
}

/// A number of elements, which a part can have.
fn count(members: usize) -> Result<u32, NoMemory>
    ensures { IfOk result (λ count. count ≡ members) }
{
    match u32::try_from(members) {
        Ok(count) => Ok(count),
        Err(_) => Err(NoMemory),
    }
}
