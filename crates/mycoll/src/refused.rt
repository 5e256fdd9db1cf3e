ghost use Rattle.mycoll.specs.Outcome.{refused_line};
ghost use Rattle.std.specs.Prelude.{◌≡◌, IfOk};

use itoa::Buffer;
use mc_base::{FileRefusal, NoMemory, Text};
use std::alloc::Global;

/// The line of a refused file.
pub fn refused_text(alloc: Global, refusal: &FileRefusal) -> Result<Text, NoMemory>
    ensures { IfOk result (λ text. text ≡ refused_line refusal.now) }
{
    let mut buffer = Buffer::new();
    let mut line = Text::from_slice(alloc, b"refused ")?;
    line.extend_from_slice(refusal.name.as_slice())?;
    line.push(b' ')?;
    line.extend_from_slice(refusal.fault.as_slice())?;
    line.push(b' ')?;
    line.extend_from_slice(buffer.format(refusal.at).as_bytes())?;
    line.push(b'\n')?;
    Ok(line)
}
