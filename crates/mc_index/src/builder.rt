ghost use Rattle.mc_index.specs.Entries.{IsSealed, rows_of};
ghost use Rattle.std.specs.List.{All};
ghost use Rattle.std.specs.Prelude.{◌≡◌, ◌≢◌, ◌∷◌, ◌++◌, [], IfOk, OnOk, OnErr};

use crate::Index;
use crate::entry::Entry;
use crate::sorting::sort_entries;
use mc_base::NoMemory;
use mc_key::Key;
use mc_order::{Pad, order_laws};
use std::alloc::Global;
use std::marker::Model;

/// Entries that are gathered for an index, which contracts see in the order in which they came.
#[derive(Drop)]
pub struct IndexBuilder {
    entries: Vec<Entry>,
    pad: Pad,
    space: u32,
}

impl Model for IndexBuilder {
    ghost use Rattle.mc_index.specs.Entries.{AreApart, SeenIndex};
    ghost use Rattle.mc_index.specs.Held.{AreKeyed, seen, seen_index};
    ghost use Rattle.std.specs.Prelude.{map};

    ghost Value = { SeenIndex };

    ghost view = { λ index. seen_index index.pad index.space index.entries.items };

    ghost invariant = { λ index.
        AreKeyed index.pad index.space index.entries.items
        × AreApart (map seen index.entries.items) };
}

impl IndexBuilder {
    /// No entries yet, for keys of this padding and space. It takes no memory.
    pub fn new(alloc: Global, pad: Pad, space: u32) -> IndexBuilder
        ensures { result ≡ record { pad = pad; space = space; entries = [] } }
    {
        IndexBuilder {
            entries: Vec::new(alloc),
            pad,
            space,
        }
    }

    /// Adds the entry of another row. Without memory for it nothing changes, and the key is
    /// dropped.
    pub fn add(&mut self, row: u32, key: Key) -> Result<(), NoMemory>
        requires pad { key.pad ≡ self.old.pad }
        requires space { key.space ≡ self.old.space }
        requires other { All (λ other. row ≢ other) (rows_of self.old.entries) }
        ensures pad { self.new.pad ≡ self.old.pad }
        ensures space { self.new.space ≡ self.old.space }
        ensures ok { OnOk result (self.new.entries
            ≡ self.old.entries ++ record { weights = key.weights; row = row } ∷ []) }
        ensures err { OnErr result (self.new.entries ≡ self.old.entries) }
    {
        self.entries.push(Entry::new(row, key))?;
        Ok(())
    }

    /// The index of the entries that were added: all of them in order.
    pub fn seal(self) -> Result<Index, NoMemory>
        ensures { IfOk result (λ index. IsSealed self index) }
    {
        let IndexBuilder {
            mut entries,
            pad,
            space,
        } = self;
        order_laws();
        sort_entries(pad, space, &mut entries);
        Ok(Index::of_sorted(entries, pad, space))
    }
}
