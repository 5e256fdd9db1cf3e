ghost use Rattle.mycoll.specs.Messages.{no_reading, too_deep, too_many_tokens, out_of_range};
ghost use Rattle.std.specs.Prelude.{◌≡◌, ◌++◌, IfOk, decimal};

use itoa::Buffer;
use mc_base::{NoMemory, Refusal, Text};
use std::alloc::Global;

/// A text that ends with a byte's place.
fn placed(alloc: Global, before: &[u8], place: u32) -> Result<Text, NoMemory>
    ensures { IfOk result (λ text. text ≡ before.now ++ decimal place) }
{
    let mut buffer = Buffer::new();
    let mut text = Text::from_slice(alloc, before)?;
    text.extend_from_slice(buffer.format(place).as_bytes())?;
    Ok(text)
}

/// No statement goes on at this byte of the script.
pub fn no_reading(alloc: Global, place: u32) -> Result<Refusal, NoMemory>
    ensures { IfOk result (λ refusal. refusal ≡ no_reading place) }
{
    let text = placed(alloc, b"no reading at byte ", place)?;
    Ok(Refusal { number: 9001, text })
}

/// More than 64 levels at this byte of the script.
pub fn too_deep(alloc: Global, place: u32) -> Result<Refusal, NoMemory>
    ensures { IfOk result (λ refusal. refusal ≡ too_deep place) }
{
    let text = placed(alloc, b"nested deeper than 64 at byte ", place)?;
    Ok(Refusal { number: 9003, text })
}

/// The statement has more than 2,048 tokens.
pub fn too_many_tokens(alloc: Global) -> Result<Refusal, NoMemory>
    ensures { IfOk result (λ refusal. refusal ≡ too_many_tokens) }
{
    let text = Text::from_slice(alloc, b"more than 2048 tokens")?;
    Ok(Refusal { number: 9004, text })
}

/// A number that the rows ask for is outside 64 bits.
pub fn out_of_range(alloc: Global) -> Result<Refusal, NoMemory>
    ensures { IfOk result (λ refusal. refusal ≡ out_of_range) }
{
    let text = Text::from_slice(alloc, b"BIGINT value is out of range")?;
    Ok(Refusal { number: 1690, text })
}
