ghost use Rattle.std.specs.Prelude.{◌≡◌, ◌<◌, [], IfOk, IfSome, OnOk, Some, None, if◌then◌else◌};
ghost use Rattle.mc_base.specs.Hex.{hex_digit};
ghost use Rattle.mc_rows.specs.HexBytes.{hex_bytes, padded, pair_byte};

use mc_base::{NoMemory, Text};
use std::alloc::Global;

/// The bytes that pairs of hexadecimal digits write; None exactly where the field is something
/// else.
pub(crate) fn hex_bytes(alloc: Global, field: &[u8]) -> Result<Option<Text>, NoMemory>
    ensures { IfOk result (λ bytes. bytes ≡ hex_bytes field.now) }
{
    let mut bytes = Text::new(alloc);
    match push_bytes(&mut bytes, field) {
        Ok(true) => Ok(Some(bytes)),
        Ok(false) => {
            drop(bytes);
            Ok(None)
        }
        Err(NoMemory) => {
            drop(bytes);
            Err(NoMemory)
        }
    }
}

/// Appends the bytes that pairs of digits write to a text without bytes; false where the field is
/// something else.
#[tactic(auto, using(crate::proofs::Written::pair_steps))]
fn push_bytes(bytes: &mut Text, field: &[u8]) -> Result<bool, NoMemory>
    requires { bytes.old ≡ [] }
    ensures { IfOk result (λ all. hex_bytes field.now ≡ (if all then Some bytes.new else None)) }
{
    bytes.reserve(field.len() / 2)?;
    let mut rest = field;
    while let [high, low, behind @ ..] = rest {
        let Some(byte) = pair_byte(*high, *low) else {
            return Ok(false);
        };
        bytes.push(byte)?;
        rest = behind;
    }
    Ok(rest.is_empty())
}

/// The byte that two digits write.
fn pair_byte(high: u8, low: u8) -> Option<u8>
    ensures { result ≡ pair_byte high low }
{
    match (hex_digit(high), hex_digit(low)) {
        (Some(sixteens), Some(ones)) => Some(16 * sixteens + ones),
        _ => None,
    }
}

/// The value of one digit, by its ASCII code.
fn hex_digit(code: u8) -> Option<u8>
    ensures value { result ≡ hex_digit code }
    ensures small { IfSome result (λ digit. digit < 16) }
{
    match code {
        b'0'..=b'9' => Some(code - b'0'),
        b'A'..=b'F' => Some(code - b'A' + 10),
        b'a'..=b'f' => Some(code - b'a' + 10),
        _ => None,
    }
}

/// Appends zeros up to a length.
#[tactic(auto, using(crate::proofs::Written::zero_steps))]
pub(crate) fn pad_zeros(bytes: &mut Text, len: usize) -> Result<(), NoMemory>
    ensures { OnOk result (bytes.new ≡ padded len bytes.old) }
{
    while bytes.len() < len {
        bytes.push(0)?;
    }
    Ok(())
}
