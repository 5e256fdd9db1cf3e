ghost use Rattle.mc_charset.specs.Chars.{IsWellFormed};
ghost use Rattle.mc_convert.specs.Conversion.{converted_text};
ghost use Rattle.mc_convert.specs.Exact.{IsExactly};
ghost use Rattle.std.specs.Prelude.{◌≡◌, ◌<◌, ◌^◌, IfOk, length};

use crate::conversion::append;
use mc_base::{NoMemory, Text};
use mc_charset::{Charset, bytes_law};
use std::alloc::Global;

/// Why a text was not converted.
#[derive(Clone, Copy, Debug, PartialEq, Eq)]
pub enum ConvertFault {
    /// The new set lacks the character at this place, the first such one, in characters from 0.
    Lossy { place: u32 },
    /// Memory ran out.
    NoMemory,
}

/// A well-formed text of fewer than 2^32 bytes in another set.
/// `Lossy` exactly where `convert` would write `?` for a character that the set lacks.
pub fn convert_exact(
    alloc: Global,
    from: Charset,
    to: Charset,
    text: &[u8],
) -> Result<Text, ConvertFault>
    requires well_formed { IsWellFormed from text.now }
    requires below_4_gib { length text.now < 2 ^ 32 }
    ensures exactly { IsExactly from to text.now result }
    ensures is { IfOk result (λ converted. converted ≡ converted_text from to text.now) }
    ensures well_formed { IfOk result (λ converted. IsWellFormed to converted) }
{
    bytes_law(text);
    let mut converted = Text::new(alloc);
    match append(from, to, text, true, &mut converted) {
        Ok(Some(place)) => Err(ConvertFault::Lossy {
            place: place as u32,
        }),
        Ok(None) => Ok(converted),
        Err(NoMemory) => Err(ConvertFault::NoMemory),
    }
}
