ghost use Rattle.mc_print.specs.Lines.{refusal_text};
ghost use Rattle.std.specs.Prelude.{◌≡◌, IfOk};

use crate::escape::push_escaped;
use itoa::Buffer;
use mc_base::{NoMemory, Refusal, Text};
use std::alloc::Global;

/// The refusal as it is written: its number, and its text with the escapes of a cell.
pub fn refusal_text(alloc: Global, refusal: &Refusal) -> Result<Text, NoMemory>
    ensures { IfOk result (λ text. text ≡ refusal_text refusal.now) }
{
    let mut buffer = Buffer::new();
    let mut line = Text::from_slice(alloc, b"ERROR ")?;
    line.extend_from_slice(buffer.format(refusal.number).as_bytes())?;
    line.extend_from_slice(b": ")?;
    push_escaped(&mut line, refusal.text.as_slice())?;
    line.push(b'\n')?;
    Ok(line)
}
