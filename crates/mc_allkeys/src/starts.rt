ghost use Rattle.mc_allkeys.specs.Starts.{start_at};
ghost use Rattle.std.specs.Option.{option_or};
ghost use Rattle.std.specs.Prelude.{◌≡◌, ◌==◌, ◌<◌, ℕ, [], Some, length, if◌then◌else◌, IfOk, OnOk};

use mc_base::NoMemory;
use std::alloc::Global;
use std::marker::Model;

/// Where the numbering of each base starts. Contracts see the list of the starts, by base.
#[derive(Drop)]
pub(crate) struct Starts {
    firsts: Vec<Option<u32>>,
}

impl Model for Starts {
    ghost use Rattle.std.specs.Prelude.{ℕ, List, Option};

    ghost Value = { List (Option ℕ) };

    ghost view = { λ starts. starts.firsts.items };
}

impl Starts {
    /// No starts.
    pub(crate) fn new(alloc: Global) -> Starts
        ensures { result ≡ [] }
    {
        Starts {
            firsts: Vec::new(alloc),
        }
    }

    /// The same starts.
    pub(crate) fn copy(&self, alloc: Global) -> Result<Starts, NoMemory>
        ensures { IfOk result (λ copy. copy ≡ self.now) }
    {
        Ok(Starts {
            firsts: Vec::from_slice(alloc, self.firsts.as_slice())?,
        })
    }

    /// Where a base starts, if that is noted.
    pub(crate) fn at(&self, base: u16) -> Option<u32>
        ensures { result ≡ start_at self.now base }
    {
        let place = base as usize;
        if place < self.firsts.len() {
            self.firsts[place]
        } else {
            None
        }
    }

    /// Makes a base's place; no start changes.
    pub(crate) fn make_room(&mut self, base: u16) -> Result<(), NoMemory>
        ensures same { (b : ℕ) → start_at self.new b ≡ start_at self.old b }
        ensures within { OnOk result (base < length self.new) }
    {
        let place = base as usize;
        if self.firsts.len() <= place {
            self.firsts.resize(place + 1, None)?;
        }
        Ok(())
    }

    /// Notes where a base starts, unless that is noted.
    pub(crate) fn note(&mut self, base: u16, start: u32)
        requires { base < length self.old }
        ensures { (b : ℕ) → start_at self.new b
            ≡ (if b == base then option_or (start_at self.old b) (Some start)
            else start_at self.old b) }
    {
        let place = base as usize;
        if self.firsts[place].is_none() {
            self.firsts[place] = Some(start);
        }
    }
}
