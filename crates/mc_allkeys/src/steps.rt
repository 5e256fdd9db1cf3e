ghost use Rattle.mc_allkeys.specs.Steps.{range_at, is_before, steps_left};
ghost use Rattle.mc_allkeys.specs.Steps.{AreStepsOf, IsLeft, IsOverlay};
ghost use Rattle.std.specs.List.Sorted.{IsNonDecreasingBy};
ghost use Rattle.std.specs.Prelude.{◌≡◌, ◌≤◌, ◌<◌, ◌∷◌, ℕ, List, [], true, false, None};
ghost use Rattle.std.specs.Prelude.{length, slice_index_or, IfOk, IfSome, MatchOption};

use crate::range::Range;
use mc_base::NoMemory;
use std::alloc::Global;

/// From a code point on, up to that of the next step: the range that decides, if one does.
#[derive(Clone, Copy)]
pub(crate) struct Step {
    pub(crate) start: u32,
    pub(crate) range: Option<Range>,
}

/// The steps of ranges, of which the first one decides where several cover a code point.
// Halves are laid over one another, so that n ranges take n log n steps.
pub(crate) fn steps_of(alloc: Global, ranges: &[Range]) -> Result<Vec<Step>, NoMemory>
    ensures { IfOk result (λ steps. AreStepsOf ranges.now steps.items) }
{
    if ranges.len() < 2 {
        return steps_of_few(alloc, ranges);
    }
    let middle = ranges.len() / 2;
    let front = steps_of(alloc, &ranges[..middle])?;
    let behind = steps_of(alloc, &ranges[middle..])?;
    let steps = overlay(alloc, front.as_slice(), behind.as_slice())?;
    Ok(steps)
}

/// The steps of one range, or of none.
fn steps_of_few(alloc: Global, ranges: &[Range]) -> Result<Vec<Step>, NoMemory>
    requires { length ranges.now < 2 }
    ensures { IfOk result (λ steps. AreStepsOf ranges.now steps.items) }
{
    match ranges {
        [range, ..] => steps_of_one(alloc, *range),
        [] => Ok(Vec::new(alloc)),
    }
}

/// The steps of one range: one at its first code point, and one behind its last one.
#[tactic(auto, using(crate::proofs::StepLemmas::steps_by))]
fn steps_of_one(alloc: Global, range: Range) -> Result<Vec<Step>, NoMemory>
    ensures { IfOk result (λ steps. AreStepsOf (range ∷ []) steps.items) }
{
    let mut steps = Vec::new(alloc);
    if range.first > range.last {
        return Ok(steps);
    }
    steps.push(Step {
        start: range.first,
        range: Some(range),
    })?;
    if range.last < u32::MAX {
        steps.push(Step {
            start: range.last + 1,
            range: None,
        })?;
    }
    Ok(steps)
}

/// The ranges of the first steps, and where these have none, those of the second ones.
fn overlay(alloc: Global, front: &[Step], behind: &[Step]) -> Result<Vec<Step>, NoMemory>
    ensures { IfOk result (λ steps. IsOverlay front.now behind.now None None steps.items) }
{
    let mut steps = Vec::new(alloc);
    let mut left = Layers {
        front,
        behind,
        first: None,
        second: None,
    };
    while let Some(step) = left.next_step() {
        steps.push(step)?;
    }
    Ok(steps)
}

/// What is left of two lists of steps, and the ranges before them.
#[derive(Drop)]
struct Layers<'a> {
    front: &'a [Step],
    behind: &'a [Step],
    first: Option<Range>,
    second: Option<Range>,
}

impl<'a> Layers<'a> {
    /// The next step of the first ones laid over the second ones.
    fn next_step(&mut self) -> Option<Step>
        ensures layers { MatchOption result
            (IsLeft self.old []) (λ step. (rest : List Step) →
            IsLeft self.new rest → IsLeft self.old (step ∷ rest)) }
        ensures fewer { IfSome result (λ _. steps_left self.new < steps_left self.old) }
    {
        if is_before(self.front, self.behind) {
            self.next_of_front()
        } else {
            self.next_of_behind()
        }
    }

    /// The next one, which is of the first steps.
    #[tactic(auto, using(crate::proofs::StepLemmas::layers_by))]
    fn next_of_front(&mut self) -> Option<Step>
        requires { is_before self.old.front.now self.old.behind.now ≡ true }
        ensures layers { MatchOption result
            (IsLeft self.old []) (λ step. (rest : List Step) →
            IsLeft self.new rest → IsLeft self.old (step ∷ rest)) }
        ensures fewer { IfSome result (λ _. steps_left self.new < steps_left self.old) }
    {
        let [step, front @ ..] = self.front else {
            return None;
        };
        self.front = front;
        self.first = step.range;
        Some(Step {
            start: step.start,
            range: step.range.or(self.second),
        })
    }

    /// The next one, which is of the second steps.
    #[tactic(auto, using(crate::proofs::StepLemmas::layers_by))]
    fn next_of_behind(&mut self) -> Option<Step>
        requires { is_before self.old.front.now self.old.behind.now ≡ false }
        ensures layers { MatchOption result
            (IsLeft self.old []) (λ step. (rest : List Step) →
            IsLeft self.new rest → IsLeft self.old (step ∷ rest)) }
        ensures fewer { IfSome result (λ _. steps_left self.new < steps_left self.old) }
    {
        let [step, behind @ ..] = self.behind else {
            return None;
        };
        self.behind = behind;
        self.second = step.range;
        Some(Step {
            start: step.start,
            range: self.first.or(step.range),
        })
    }
}

/// Whether the first of some steps comes before others, or with them.
fn is_before(front: &[Step], behind: &[Step]) -> bool
    ensures { result ≡ is_before front.now behind.now }
{
    let [other, ..] = behind else {
        return true;
    };
    match front {
        [step, ..] => step.start <= other.start,
        [] => false,
    }
}

/// The range at a code point.
pub(crate) fn range_at(steps: &[Step], code: u32) -> Option<Range>
    requires { IsNonDecreasingBy (λ (step : Step). step.start) steps.now }
    ensures { result ≡ range_at steps.now code None }
{
    let count = steps_up_to(steps, code);
    if count == 0 {
        return None;
    }
    steps[count - 1].range
}

/// How many steps start at a code point or below it.
fn steps_up_to(steps: &[Step], code: u32) -> usize
    requires { IsNonDecreasingBy (λ (step : Step). step.start) steps.now }
    ensures within { result ≤ length steps.now }
    ensures up_to { (k : ℕ) (d : Step) → k < result → (slice_index_or steps.now k d).start ≤ code }
    ensures above { (k : ℕ) (d : Step) → result ≤ k → k < length steps.now →
        code < (slice_index_or steps.now k d).start }
{
    steps.partition_point(|step| step.start <= code)
}
