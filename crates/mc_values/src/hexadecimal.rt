ghost use Rattle.mc_values.specs.Hexadecimal.{hex_digit, hex_digits, hex_pair, number_digits};
ghost use Rattle.std.specs.Prelude.{
  ◌≡◌,
  ◌<◌,
  ◌++◌,
  IsUtf8,
  OnErr,
  OnOk,
  length,
  take,
};
ghost use Rattle.std.specs.Str.{IsAscii};

use mc_base::{NoMemory, Text};
use std::alloc::Global;

/// Appends two digits for each byte, in upper case; without memory for all of them, none.
pub fn push_hex(out: &mut Text, bytes: &[u8]) -> Result<(), NoMemory>
    ensures ok { OnOk result (out.new ≡ out.old ++ hex_digits bytes.now) }
    ensures err { OnErr result (out.new ≡ out.old) }
{
    out.reserve(bytes.len().saturating_mul(2))?;
    let len = out.len();
    match push_pairs(out, bytes) {
        Ok(()) => Ok(()),
        Err(NoMemory) => {
            out.truncate(len);
            Err(NoMemory)
        }
    }
}

/// Appends the digits of the number's two's complement in 64 bits, in upper case, with no zeros in
/// front, `0` for 0; without memory, none. MySQL 8.0 manual, 12.8, HEX.
pub fn push_hex_number(alloc: Global, out: &mut Text, number: i64) -> Result<(), NoMemory>
    ensures ok { OnOk result (out.new ≡ out.old ++ number_digits number) }
    ensures err { OnErr result (out.new ≡ out.old) }
{
    let digits = format!(in alloc; "{number:X}")?;
    out.extend_from_slice(digits.as_bytes())
}

/// Appends two digits for each byte, or without memory those of some first bytes.
#[tactic(auto, unfolding(crate::specs::Hexadecimal::hex_digits))]
fn push_pairs(out: &mut Text, bytes: &[u8]) -> Result<(), NoMemory>
    ensures ok { OnOk result (out.new ≡ out.old ++ hex_digits bytes.now) }
    ensures err { OnErr result (take (length out.old) out.new ≡ out.old) }
{
    for byte in bytes {
        out.extend_from_slice(&hex_pair(*byte))?;
    }
    Ok(())
}

/// The two digits of a byte.
#[inline(always)]
fn hex_pair(byte: u8) -> [u8; 2]
    ensures { result ≡ hex_pair byte }
{
    [hex_digit(byte / 16), hex_digit(byte % 16)]
}

/// A hexadecimal digit, in upper case.
#[inline(always)]
fn hex_digit(value: u8) -> u8
    requires { value < 16 }
    ensures { result ≡ hex_digit value }
{
    if value < 10 {
        b'0' + value
    } else {
        b'A' + (value - 10)
    }
}

/// Hexadecimal digits are ASCII, and so UTF-8.
pub fn hex_law(bytes: &[u8])
    ensures ascii { IsAscii (hex_digits bytes.now) }
    ensures utf8 { IsUtf8 (hex_digits bytes.now) }
{
    let _len = bytes.len();
}
