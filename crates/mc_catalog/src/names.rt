ghost use Rattle.std.specs.Prelude.{
  ◌≡◌,
  ◌<◌,
  [],
  ◌∷◌,
  ◌++◌,
  length,
  false,
  position,
  take,
  IfSome,
  OnOk,
  OnErr,
};
ghost use Rattle.std.specs.List.{list_any};
ghost use Rattle.std.specs.Str.{bytes_eq};

use indexmap::IndexSet;
use mc_base::NoMemory;
use std::alloc::Global;
use std::marker::Model;

/// Names, each once, in the order in which they came.
#[derive(Drop)]
pub(crate) struct Names {
    set: IndexSet<Vec<u8>>,
}

impl Model for Names {
    ghost use Rattle.std.specs.Prelude.{List, ℕ, map};

    ghost Value = { List (List ℕ) };

    ghost view = { λ names. map (λ name. name.items) names.set.keys };
}

impl Names {
    /// No names.
    pub(crate) fn new(alloc: Global) -> Names
        ensures { result ≡ [] }
    {
        Names {
            set: IndexSet::new(alloc),
        }
    }

    /// The place of a name, from 0.
    pub(crate) fn place_of(&self, name: &[u8]) -> Option<usize>
        ensures place { result ≡ position (λ other. bytes_eq other name.now) self.now }
        ensures within { IfSome result (λ i. i < length self.now) }
    {
        self.set.get_index_of(name)
    }

    /// Whether a name is there.
    pub(crate) fn has(&self, name: &[u8]) -> bool
        ensures { result ≡ list_any (λ other. bytes_eq other name.now) self.now }
    {
        self.place_of(name).is_some()
    }

    /// Adds a name that is not there.
    pub(crate) fn add(&mut self, alloc: Global, name: &[u8]) -> Result<(), NoMemory>
        requires { list_any (λ other. bytes_eq other name.now) self.old ≡ false }
        ensures ok { OnOk result (self.new ≡ self.old ++ name.now ∷ []) }
        ensures err { OnErr result (self.new ≡ self.old) }
    {
        self.set.insert(Vec::from_slice(alloc, name)?)?;
        Ok(())
    }

    /// Keeps the first `len` names.
    pub(crate) fn truncate(&mut self, len: usize)
        ensures { self.new ≡ take len self.old }
    {
        self.set.truncate(len);
    }
}
