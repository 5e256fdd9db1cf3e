ghost use Rattle.mc_allkeys.specs.Table.{contractions_of};
ghost use Rattle.mc_uca.specs.Reach.{reach_at, Reaches};
ghost use Rattle.std.specs.Prelude.{◌≡◌, ◌≤◌, ◌<◌, ◌^◌, ℕ, length, IfOk, OnOk};

use mc_allkeys::{Keys, keys_law, longest_law};
use mc_base::NoMemory;
use std::alloc::Global;
use std::marker::Model;

/// How long the contractions are, at most, that begin with each code point. Contracts see the list
/// of the lengths.
#[derive(Drop)]
pub(crate) struct Reach {
    lens: Vec<u8>,
}

impl Model for Reach {
    ghost use Rattle.std.specs.Prelude.{ℕ, List};

    ghost Value = { List ℕ };

    ghost view = { λ reach. reach.lens.items };
}

impl Reach {
    /// That of a table's contractions.
    pub(crate) fn of(alloc: Global, keys: &Keys) -> Result<Reach, NoMemory>
        ensures { IfOk result (λ reach. Reaches (contractions_of keys.now.entries) reach) }
    {
        let mut reach = Reach {
            lens: Vec::new(alloc),
        };
        keys_law(keys);
        longest_law();
        for i in 0..keys.contraction_count() {
            let text = keys.contraction(i);
            if let [first, ..] = text {
                reach.note(*first, text.len())?;
            }
        }
        Ok(reach)
    }

    /// The greatest length of a contraction that begins with a code point; 1 where none does.
    #[inline(always)]
    pub(crate) fn at(&self, code: u32) -> usize
        ensures { result ≡ reach_at self.now code }
    {
        let place = code as usize;
        if place < self.lens.len() {
            self.lens[place] as usize
        } else {
            1
        }
    }

    /// Notes a contraction's length for the code point that it begins with.
    fn note(&mut self, code: u32, len: usize) -> Result<(), NoMemory>
        requires { len ≤ 6 }
        ensures kept { (c : ℕ) → reach_at self.old c ≤ reach_at self.new c }
        ensures noted { OnOk result (len ≤ reach_at self.new code) }
    {
        let place = code as usize;
        self.make_room(place)?;
        if (self.lens[place] as usize) < len {
            self.lens[place] = len as u8;
        }
        Ok(())
    }

    /// Makes a place; no length changes.
    fn make_room(&mut self, place: usize) -> Result<(), NoMemory>
        requires { place < 2 ^ 32 }
        ensures same { (c : ℕ) → reach_at self.new c ≡ reach_at self.old c }
        ensures within { OnOk result (place < length self.new) }
    {
        if self.lens.len() <= place {
            self.lens.resize(place + 1, 1)?;
        }
        Ok(())
    }
}
