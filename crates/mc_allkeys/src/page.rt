ghost use Rattle.std.specs.Prelude.{◌≡◌, ◌==◌, ◌<◌, ℕ, [], slice_index_or, if◌then◌else◌, IfOk};
ghost use Rattle.std.specs.Prelude.{OnOk, OnErr};
ghost use Rattle.mc_allkeys.specs.Cells.{no_cell};

use mc_base::NoMemory;
use std::alloc::Global;
use std::marker::Model;

/// A part of a list: the place of its first member, and how many it has.
#[derive(Clone, Copy)]
pub(crate) struct Part {
    pub(crate) start: u32,
    pub(crate) len: u32,
}

/// What is kept for a code point: where its elements are, if it has an entry of its own, and how
/// many code points the contractions have, at most, that begin with it.
#[derive(Clone, Copy)]
pub(crate) struct Cell {
    pub(crate) part: Option<Part>,
    pub(crate) reach: u8,
}

/// The cell of a code point of which the table says nothing.
pub(crate) const NO_CELL: Cell = Cell {
    part: None,
    reach: 1,
};

/// The cells of up to 256 code points in a row; what is behind the last one is empty. A page
/// without cells takes no memory.
#[derive(Drop)]
pub(crate) struct Page {
    cells: Vec<Cell>,
}

impl Model for Page {
    ghost use Rattle.std.specs.Prelude.{List};
    ghost use Rattle.mc_allkeys.specs.declared.page.Cell.{Cell};

    ghost Value = { List Cell };

    ghost view = { λ page. page.cells.items };
}

impl Page {
    /// A page without cells.
    pub(crate) fn new(alloc: Global) -> Page
        ensures { result ≡ [] }
    {
        Page {
            cells: Vec::new(alloc),
        }
    }

    /// A page of the same cells.
    pub(crate) fn copy(&self, alloc: Global) -> Result<Page, NoMemory>
        ensures { IfOk result (λ copy. copy ≡ self.now) }
    {
        Ok(Page {
            cells: Vec::from_slice(alloc, self.cells.as_slice())?,
        })
    }

    /// The cell at a place.
    pub(crate) fn cell(&self, place: usize) -> Cell
        ensures { result ≡ slice_index_or self.now place no_cell }
    {
        if place < self.cells.len() {
            self.cells[place]
        } else {
            NO_CELL
        }
    }

    /// Puts a cell at a place; the other cells stay.
    pub(crate) fn put(&mut self, place: usize, cell: Cell) -> Result<(), NoMemory>
        requires { place < 256 }
        ensures ok { OnOk result ((k : ℕ) → slice_index_or self.new k no_cell
            ≡ (if k == place then cell else slice_index_or self.old k no_cell)) }
        ensures err { OnErr result (self.new ≡ self.old) }
    {
        if self.cells.len() <= place {
            self.cells.resize(place + 1, NO_CELL)?;
        }
        self.cells[place] = cell;
        Ok(())
    }
}
