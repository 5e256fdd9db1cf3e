ghost use Rattle.std.specs.Prelude.{◌≡◌, ◌+◌, ◌-◌, ◌^◌, ◌<◌, min};

use std::marker::Model;

/// A counter of steps, which contracts see as a number below 2^64. `L` only marks its type: code
/// that is generic in `L` has no value of it, so it can count only on the counter that it is lent.
#[derive(Drop)]
pub struct Steps<L> {
    count: u64,
    mark: L,
}

impl<L> Model for Steps<L> {
    ghost use Rattle.std.specs.Prelude.{ℕ};

    ghost Value = { ℕ };

    ghost view = { λ steps. steps.count };
}

impl<L> Steps<L> {
    /// A counter that begins at 0. It keeps the mark, which no call gives back.
    pub fn start(mark: L) -> Steps<L>
        ensures { result ≡ 0 }
    {
        Steps { count: 0, mark }
    }

    /// Adds one; the greatest number stays.
    pub fn tick(&mut self)
        ensures { self.new ≡ min (self.old + 1) (2 ^ 64 - 1) }
    {
        self.count = self.count.saturating_add(1);
    }

    /// The number so far.
    pub fn count(&self) -> u64
        ensures { result ≡ self.now }
    {
        self.count
    }
}
