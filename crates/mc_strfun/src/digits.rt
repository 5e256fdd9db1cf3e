ghost use Rattle.mc_values.specs.Hexadecimal.{hex_digits};
ghost use Rattle.mc_values.specs.Values.{greatest_string, within_limit};
ghost use Rattle.std.specs.Prelude.{◌≡◌, ◌*◌, ◌≤◌, IfOk, length};

use mc_base::{NoMemory, Text};
use mc_values::{GREATEST_STRING, push_hex};
use std::alloc::Global;

/// Two digits for each byte, in upper case, in ASCII. None exactly where they are longer than the
/// greatest length of a string.
pub fn hex(alloc: Global, text: &Text) -> Result<Option<Text>, NoMemory>
    ensures { IfOk result (λ value. value ≡ within_limit (hex_digits text.now)) }
{
    if text.len() > GREATEST_STRING / 2 {
        return Ok(None);
    }
    Ok(Some(digits_of(alloc, text.as_slice())?))
}

/// Two digits for each byte of a text that is at most half as long as a string may be.
fn digits_of(alloc: Global, text: &[u8]) -> Result<Text, NoMemory>
    requires { 2 * length text.now ≤ greatest_string }
    ensures { IfOk result (λ digits. digits ≡ hex_digits text.now) }
{
    let mut digits = Text::new(alloc);
    digits.reserve(2 * text.len())?;
    push_hex(&mut digits, text)?;
    Ok(digits)
}
