ghost use Rattle.std.specs.Prelude.{◌≡◌, ◌≤◌, [], Some};
ghost use Rattle.mc_base.specs.FaultPlan.{fails_now, counted};
ghost use Rattle.mc_base.specs.Sink.{PutTells, PutCause};
ghost use Rattle.mc_base.specs.MemSink.{PutsAsPlanned};

use crate::fault_plan::FaultPlan;
use crate::{List, PutAnswer, Sink, Text};
use std::alloc::Global;
use std::marker::Model;

/// A sink in memory that fails in the calls that it was told.
#[derive(Drop)]
pub struct MemSink {
    written: Text,
    plan: FaultPlan,
}

impl Model for MemSink {
    ghost use Rattle.mc_base.specs.MemSink.{SinkState};

    ghost Value = { SinkState };

    ghost view = { λ sink. record { written = sink.written; plan = sink.plan } };
}

impl MemSink {
    /// A sink that holds nothing. The calls of the numbers in `fail` answer Failed, counted from 0.
    pub fn new(alloc: Global, fail: List<u64>) -> MemSink
        ensures { result ≡ record {
          written = [];
          plan = record { fail = fail; calls = 0; faults = 0 };
        } }
    {
        MemSink {
            written: Text::new(alloc),
            plan: FaultPlan::new(fail),
        }
    }

    /// What was written.
    pub fn written(&self) -> &Text
        ensures { result.now ≡ self.now.written }
    {
        &self.written
    }
}

impl Sink for MemSink {
    ghost written = { λ sink. Some sink.written };

    ghost faults = { λ sink. sink.plan.faults };

    /// A call that fails appends nothing.
    fn put(&mut self, bytes: &[u8]) -> PutAnswer
        ensures later { self.old.plan.faults ≤ self.new.plan.faults }
        ensures told { PutTells result bytes.now (Some self.old.written) (Some self.new.written) }
        ensures cause { PutCause result self.old.plan.faults self.new.plan.faults }
        ensures planned { self.new.plan ≡ counted self.old.plan }
        ensures failing { PutsAsPlanned result
            (fails_now self.old.plan) self.old.written self.new.written }
    {
        if self.plan.count_call() {
            return PutAnswer::Failed;
        }
        match self.written.extend_from_slice(bytes) {
            Ok(()) => PutAnswer::Done,
            Err(_) => PutAnswer::NoMemory,
        }
    }
}
