ghost use Rattle.mc_key.specs.Fronts.{front_of};
ghost use Rattle.std.specs.Prelude.{◌≡◌};

use mc_key::{Key, front_of};

/// The key of a row with its front, and the row's number.
#[derive(Drop)]
pub(crate) struct Entry {
    pub(crate) front: u128,
    pub(crate) key: Key,
    pub(crate) row: u32,
    ghost is_front: { front ≡ front_of key.pad key.space key.weights },
}

impl Entry {
    /// The entry of a row.
    pub(crate) fn new(row: u32, key: Key) -> Entry
        ensures key { result.key ≡ key }
        ensures row { result.row ≡ row }
    {
        Entry {
            front: front_of(key.as_slice(), key.pad(), key.space()),
            key,
            row,
        }
    }
}
