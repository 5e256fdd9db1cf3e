ghost use Rattle.std.specs.Prelude.{◌≡◌, ◌≤◌, ℕ, None, Some, true, false, slice_index, IfSome};
ghost use Rattle.std.specs.Prelude.{IfOk};
ghost use Rattle.std.specs.Bool.{OnTrue, OnFalse};
ghost use Rattle.mc_allkeys.specs.Listed.{code_of, codes_of, small_of};

use mc_base::{NoMemory, Weights, hex_number, next_field};

/// The greatest code point.
const GREATEST: u32 = 0x10FFFF;

/// Reads the code points that a text is, each a field of one to six hexadecimal digits; whether it
/// is nothing else.
pub(crate) fn read_codes(text: &[u8], codes: &mut Weights) -> Result<bool, NoMemory>
    ensures yes { IfOk result (λ all. OnTrue all (codes_of text.now ≡ Some codes.new)) }
    ensures no { IfOk result (λ all. OnFalse all (codes_of text.now ≡ None)) }
    ensures small { IfOk result (λ _. (k : ℕ) → slice_index codes.new k ≤ 0x10FFFF) }
{
    codes.truncate(0);
    let mut rest = text;
    while let Some((field, behind)) = next_field(rest) {
        let Some(code) = code_of(field) else {
            return Ok(false);
        };
        codes.push(code)?;
        rest = behind;
    }
    Ok(true)
}

/// The number of one to six hexadecimal digits, at most FFFF.
pub(crate) fn small_of(digits: &[u8]) -> Option<u16>
    ensures { result ≡ small_of digits.now }
{
    let number = hex_number(digits)?;
    if number <= 0xFFFF {
        Some(number as u16)
    } else {
        None
    }
}

/// The code point that a field is.
pub(crate) fn code_of(field: &[u8]) -> Option<u32>
    ensures code { result ≡ code_of field.now }
    ensures small { IfSome result (λ code. code ≤ 0x10FFFF) }
{
    let code = hex_number(field)?;
    if code <= GREATEST { Some(code) } else { None }
}
