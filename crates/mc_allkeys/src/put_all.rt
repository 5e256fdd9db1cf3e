ghost use Rattle.std.specs.Prelude.{◌≡◌, ◌≢◌, ◌≤◌, ◌<◌, ℕ, [], length, slice_index, slice_index_or};
ghost use Rattle.std.specs.Prelude.{OnOk, OnErr};
ghost use Rattle.mc_allkeys.specs.Put.{IsPut};

use crate::element::Element;
use crate::keys::Keys;
use mc_base::{List, NoMemory, Weights};
use std::alloc::Global;

impl Keys {
    /// Makes the elements at each place the entry of the text at that place; every other entry and
    /// the ranges stay. Without memory all is as it was.
    pub fn put_all(
        &mut self,
        texts: &List<Weights>,
        elements: &List<List<Element>>,
    ) -> Result<(), NoMemory>
        requires same_length { length elements.now ≡ length texts.now }
        requires different { (i : ℕ) (j : ℕ) → i < j → j < length texts.now →
            slice_index_or texts.now i [] ≢ slice_index_or texts.now j [] }
        requires some { (k : ℕ) → k < length texts.now →
            1 ≤ length (slice_index_or texts.now k []) }
        requires short { (k : ℕ) → length (slice_index_or texts.now k []) ≤ 6 }
        requires codes { (k : ℕ) (i : ℕ) →
            slice_index (slice_index_or texts.now k []) i ≤ 0x10FFFF }
        ensures ok { OnOk result
            (IsPut texts.now elements.now (length texts.now) self.old self.new) }
        ensures err { OnErr result (self.new ≡ self.old) }
    {
        let alloc = self.allocator();
        let mut copy = self.copy(alloc)?;
        put_each(&mut copy, alloc, texts, elements)?;
        *self = copy;
        Ok(())
    }
}

/// Puts the elements at each place into a table.
fn put_each(
    keys: &mut Keys,
    alloc: Global,
    texts: &List<Weights>,
    elements: &List<List<Element>>,
) -> Result<(), NoMemory>
    requires same_length { length elements.now ≡ length texts.now }
    requires different { (i : ℕ) (j : ℕ) → i < j → j < length texts.now →
        slice_index_or texts.now i [] ≢ slice_index_or texts.now j [] }
    requires some { (k : ℕ) → k < length texts.now → 1 ≤ length (slice_index_or texts.now k []) }
    requires short { (k : ℕ) → length (slice_index_or texts.now k []) ≤ 6 }
    requires codes { (k : ℕ) (i : ℕ) → slice_index (slice_index_or texts.now k []) i ≤ 0x10FFFF }
    ensures { OnOk result (IsPut texts.now elements.now (length texts.now) keys.old keys.new) }
{
    for place in 0..texts.len() {
        let text = texts.as_slice()[place].as_slice();
        keys.put(alloc, text, elements.as_slice()[place].as_slice())?;
    }
    Ok(())
}
