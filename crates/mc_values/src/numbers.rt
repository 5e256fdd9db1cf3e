ghost use Rattle.mc_charset.specs.Chars.{Spells};
ghost use Rattle.std.specs.Fmt.{signed_decimal};
ghost use Rattle.std.specs.Prelude.{◌≤◌, IfOk, length};

use crate::ascii::ascii_text;
use itoa::Buffer;
use mc_base::{NoMemory, Text};
use mc_charset::Charset;
use std::alloc::Global;

/// The number in decimal digits, behind `-` where it is negative, as a text of the set. It has at
/// most 20 characters, so 80 bytes.
pub fn int_text(alloc: Global, number: i64, set: Charset) -> Result<Text, NoMemory>
    ensures spells { IfOk result (λ text. Spells set (signed_decimal number) text) }
    ensures short { IfOk result (λ text. length text ≤ 80) }
{
    let mut buffer = Buffer::new();
    let digits = buffer.format(number);
    ascii_text(alloc, set, digits.as_bytes())
}
