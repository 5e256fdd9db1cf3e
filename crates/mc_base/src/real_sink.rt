ghost use Rattle.std.specs.Prelude.{◌≡◌, None};

use crate::{PutAnswer, Sink};

/// The standard output, written through std with no buffer. It doesn't tell what was written.
#[derive(Drop)]
pub struct RealSink<R: Print + Drop> {
    runtime: R,
    faults: u64,
}

impl<R: Print + Drop> RealSink<R> {
    /// The standard output of this runtime.
    pub fn new(runtime: R) -> RealSink<R>
        ensures faults { ⟦<RealSink<R> as Sink>⟧.faults result ≡ 0 }
        ensures untold { ⟦<RealSink<R> as Sink>⟧.written result ≡ None }
    {
        RealSink { runtime, faults: 0 }
    }
}

impl<R: Print + Drop> Sink for RealSink<R> {
    ghost written = { λ _. None };

    ghost faults = { λ sink. sink.faults };

    fn put(&mut self, bytes: &[u8]) -> PutAnswer {
        match self.runtime.write_all(bytes) {
            Ok(()) => PutAnswer::Done,
            Err(_) => {
                self.faults = self.faults.saturating_add(1);
                PutAnswer::Failed
            }
        }
    }
}
