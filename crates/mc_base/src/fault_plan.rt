ghost use Rattle.std.specs.Prelude.{◌≡◌, ◌≤◌};
ghost use Rattle.mc_base.specs.FaultPlan.{fails_now, counted};

use crate::List;
use std::marker::Model;

/// The calls of a device in memory that fail, and the calls made so far. Both counts stand still at
/// their greatest number.
#[derive(Drop)]
pub(crate) struct FaultPlan {
    fail: List<u64>,
    calls: u64,
    faults: u64,
}

impl Model for FaultPlan {
    ghost use Rattle.mc_base.specs.FaultPlan.{Plan};

    ghost Value = { Plan };

    ghost view = { λ plan. record { fail = plan.fail; calls = plan.calls; faults = plan.faults } };
}

impl FaultPlan {
    /// A plan by which the calls of these numbers fail, counted from 0.
    pub(crate) fn new(fail: List<u64>) -> FaultPlan
        ensures { result ≡ record { fail = fail; calls = 0; faults = 0 } }
    {
        FaultPlan {
            fail,
            calls: 0,
            faults: 0,
        }
    }

    /// Counts a call; whether it fails.
    pub(crate) fn count_call(&mut self) -> bool
        ensures counted { self.new ≡ counted self.old }
        ensures answer { result ≡ fails_now self.old }
        ensures later { self.old.faults ≤ self.new.faults }
    {
        let fails = self.fail.as_slice().contains(&self.calls);
        self.calls = self.calls.saturating_add(1);
        if fails {
            self.faults = self.faults.saturating_add(1);
        }
        fails
    }
}
