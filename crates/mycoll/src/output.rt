ghost use Rattle.std.specs.Prelude.{◌≡◌, ◌≤◌, IfOk};
ghost use Rattle.mycoll.specs.Answers.{is_refusal};
ghost use Rattle.mycoll.specs.SaidTexts.{said_text, HasTexts};
ghost use Rattle.mycoll.specs.Answering.{Written, StopCause};
ghost use Rattle.mycoll.specs.declared.output.Stopped.TheVariants.{NoMemory as OutOfMemory};

use crate::said::Said;
use mc_base::{NoMemory, PutAnswer, Sink, Text};
use mc_print::{push_answer, refusal_text};
use std::alloc::Global;

/// Why writing stopped.
#[derive(Clone, Copy, Debug, PartialEq, Eq)]
pub enum Stopped {
    /// The sink failed.
    Fault,
    /// Memory ran out.
    NoMemory,
}

impl From<NoMemory> for Stopped {
    ghost from_gives = { λ _ error. error ≡ OutOfMemory };

    fn from(_error: NoMemory) -> Stopped {
        Stopped::NoMemory
    }
}

/// Writes these bytes in one call of the sink.
pub fn write_bytes<S: Sink>(out: &mut S, bytes: &[u8]) -> Result<(), Stopped>
    ensures later { S.faults out.old ≤ S.faults out.new }
    ensures told { Written bytes.now result (S.written out.old) (S.written out.new) }
    ensures cause { StopCause result (S.faults out.old) (S.faults out.new) }
{
    match out.put(bytes) {
        PutAnswer::Done => Ok(()),
        PutAnswer::Failed => Err(Stopped::Fault),
        PutAnswer::NoMemory => Err(Stopped::NoMemory),
    }
}

/// Writes an answer in one call of the sink, or in none where nothing is said, and tells whether it
/// is a refusal. The lines of a table are made in `lines`, whatever that held, so that a script's
/// answers take their memory once.
pub fn write_said<S: Sink>(
    alloc: Global,
    said: Said,
    lines: &mut Text,
    out: &mut S,
) -> Result<bool, Stopped>
    requires { HasTexts said }
    ensures later { S.faults out.old ≤ S.faults out.new }
    ensures told { Written (said_text said) result (S.written out.old) (S.written out.new) }
    ensures refused { IfOk result (λ refused. refused ≡ is_refusal said) }
    ensures cause { StopCause result (S.faults out.old) (S.faults out.new) }
{
    match said {
        Said::Table(answer) => {
            lines.truncate(0);
            push_answer(alloc, lines, &answer)?;
            write_bytes(out, lines.as_slice())?;
            Ok(false)
        }
        Said::Refused(refusal) => {
            let text = refusal_text(alloc, &refusal)?;
            write_bytes(out, text.as_slice())?;
            Ok(true)
        }
        Said::Nothing => Ok(false),
    }
}
