ghost use Rattle.mc_allkeys.specs.Starts.{AreStartsOf};
ghost use Rattle.mc_allkeys.specs.Steps.{AreStepsOf};
ghost use Rattle.mc_allkeys.specs.Table.{covers, implicit_of, start_of};
ghost use Rattle.std.specs.List.{find};
ghost use Rattle.std.specs.Prelude.{◌≡◌, ◌≤◌, ◌++◌, ◌∷◌, [], length, take, IfOk, OnOk, OnErr};

use crate::range::{Range, first_covering};
use crate::starts::Starts;
use crate::steps::{Step, range_at, steps_of};
use mc_base::NoMemory;
use std::alloc::Global;
use std::marker::Model;

/// Ranges of implicit weights, found by a base and by a code point. Contracts see the list of the
/// ranges.
// The steps are those of the first `covered` ranges; `index` makes these all of them.
#[derive(Drop)]
pub(crate) struct Ranges {
    ranges: Vec<Range>,
    starts: Starts,
    steps: Vec<Step>,
    covered: usize,
    ghost noted: { AreStartsOf ranges.items starts },
    ghost within: { covered ≤ length ranges.items },
    ghost stepped: { AreStepsOf (take covered ranges.items) steps.items },
}

impl Model for Ranges {
    ghost use Rattle.std.specs.Prelude.{List};
    ghost use Rattle.mc_allkeys.specs.declared.range.Range.{Range};

    ghost Value = { List Range };

    ghost view = { λ ranges. ranges.ranges.items };
}

impl Ranges {
    /// No ranges.
    #[tactic(auto, using(crate::proofs::RangesLemmas::kept_by))]
    pub(crate) fn new(alloc: Global) -> Ranges
        ensures { result ≡ [] }
    {
        Ranges {
            ranges: Vec::new(alloc),
            starts: Starts::new(alloc),
            steps: Vec::new(alloc),
            covered: 0,
        }
    }

    /// The same ranges.
    pub(crate) fn copy(&self, alloc: Global) -> Result<Ranges, NoMemory>
        ensures { IfOk result (λ copy. copy ≡ self.now) }
    {
        let ranges = Vec::from_slice(alloc, self.ranges.as_slice())?;
        let starts = self.starts.copy(alloc)?;
        let steps = Vec::from_slice(alloc, self.steps.as_slice())?;
        Ok(Ranges {
            ranges,
            starts,
            steps,
            covered: self.covered,
        })
    }

    /// Appends a range.
    #[tactic(auto, using(crate::proofs::RangesLemmas::kept_by))]
    pub(crate) fn push(&mut self, range: Range) -> Result<(), NoMemory>
        ensures ok { OnOk result (self.new ≡ self.old ++ range ∷ []) }
        ensures err { OnErr result (self.new ≡ self.old) }
    {
        self.starts.make_room(range.base)?;
        self.ranges.push(range)?;
        self.starts.note(range.base, range.first);
        Ok(())
    }

    /// Makes the steps of all ranges, by which code points are found quickly.
    #[tactic(auto, using(crate::proofs::RangesLemmas::kept_by))]
    pub(crate) fn index(&mut self) -> Result<(), NoMemory>
        ensures { self.new ≡ self.old }
    {
        let alloc = self.allocator();
        let steps = steps_of(alloc, self.ranges.as_slice())?;
        self.steps = steps;
        self.covered = self.ranges.len();
        Ok(())
    }

    /// Where the numbering of a base starts: at the first code point of its first range, else at
    /// another one.
    #[tactic(auto, using(crate::proofs::RangesLemmas::starts_by))]
    pub(crate) fn start_of(&self, base: u16, other: u32) -> u32
        ensures { result ≡ start_of self.now base other }
    {
        match self.starts.at(base) {
            Some(start) => start,
            None => other,
        }
    }

    /// The base of a code point, and its number from the start of that base: its first range
    /// decides.
    pub(crate) fn implicit_of(&self, code: u32) -> Option<(u16, u32)>
        ensures { result ≡ implicit_of self.now code }
    {
        let range = self.covering(code)?;
        let start = self.start_of(range.base, range.first);
        Some((range.base, code.saturating_sub(start)))
    }

    /// The first range that covers a code point.
    fn covering(&self, code: u32) -> Option<Range>
        ensures { result ≡ find (covers code) self.now }
    {
        match range_at(self.steps.as_slice(), code) {
            Some(range) => Some(range),
            None => first_covering(&self.ranges[self.covered..], code),
        }
    }

    /// What it takes its memory from.
    pub(crate) fn allocator(&self) -> Global {
        *self.ranges.allocator()
    }
}
