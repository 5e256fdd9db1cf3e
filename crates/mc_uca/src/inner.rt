ghost use Rattle.mc_allkeys.specs.Table.{contractions_of};
ghost use Rattle.mc_uca.specs.Inner.{inner_at, MarksInner};
ghost use Rattle.std.specs.Prelude.{◌≡◌, ◌≤◌, ◌<◌, ◌^◌, ℕ, true, length, slice_index_or};
ghost use Rattle.std.specs.Prelude.{IfOk, OnOk};

use mc_allkeys::Keys;
use mc_base::NoMemory;
use std::alloc::Global;
use std::marker::Model;

/// Which code points stand in a contraction behind its first place. Contracts see the list of the
/// marks.
#[derive(Drop)]
pub(crate) struct Inner {
    marks: Vec<bool>,
}

impl Model for Inner {
    ghost use Rattle.std.specs.Prelude.{Bool, List};

    ghost Value = { List Bool };

    ghost view = { λ inner. inner.marks.items };
}

impl Inner {
    /// That of a table's contractions.
    pub(crate) fn of(alloc: Global, keys: &Keys) -> Result<Inner, NoMemory>
        ensures { IfOk result (λ inner. MarksInner (contractions_of keys.now.entries) inner) }
    {
        let mut marks = Vec::new(alloc);
        for place in 0..keys.contraction_count() {
            mark_behind(&mut marks, keys.contraction(place))?;
        }
        Ok(Inner { marks })
    }

    /// Whether a code point is marked.
    #[inline(always)]
    pub(crate) fn at(&self, code: u32) -> bool
        ensures { result ≡ inner_at self.now code }
    {
        let place = code as usize;
        if place < self.marks.len() {
            self.marks[place]
        } else {
            false
        }
    }
}

/// Marks the code points of a text behind its first place.
fn mark_behind(marks: &mut Vec<bool>, text: &[u32]) -> Result<(), NoMemory>
    ensures kept { OnOk result ((c : ℕ) → inner_at marks.old.items c ≡ true →
        inner_at marks.new.items c ≡ true) }
    ensures noted { OnOk result ((k : ℕ) → 1 ≤ k → k < length text.now →
        inner_at marks.new.items (slice_index_or text.now k 0) ≡ true) }
{
    for k in 1..text.len() {
        mark(marks, text[k])?;
    }
    Ok(())
}

/// Marks a code point.
fn mark(marks: &mut Vec<bool>, code: u32) -> Result<(), NoMemory>
    ensures kept { OnOk result ((c : ℕ) → inner_at marks.old.items c ≡ true →
        inner_at marks.new.items c ≡ true) }
    ensures noted { OnOk result (inner_at marks.new.items code ≡ true) }
{
    let place = code as usize;
    make_room(marks, place)?;
    marks[place] = true;
    Ok(())
}

/// Makes a place; no mark changes.
fn make_room(marks: &mut Vec<bool>, place: usize) -> Result<(), NoMemory>
    requires { place < 2 ^ 32 }
    ensures same { OnOk result ((c : ℕ) →
        inner_at marks.new.items c ≡ inner_at marks.old.items c) }
    ensures within { OnOk result (place < length marks.new.items) }
{
    if marks.len() <= place {
        marks.resize(place + 1, false)?;
    }
    Ok(())
}
