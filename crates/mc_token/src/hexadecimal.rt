ghost use Rattle.std.specs.Prelude.{◌≡◌, ◌<◌, ◌≤◌, ◌++◌, length, IfOk, OnOk};
ghost use Rattle.mc_token.specs.Hexadecimal.{digits_len, digit_value, paired, bytes_of_digits};

use mc_base::{NoMemory, Text};
use std::alloc::Global;

/// How many hexadecimal digits these bytes begin with.
pub fn digits_len(bytes: &[u8]) -> usize
    ensures value { result ≡ digits_len bytes.now }
    ensures within { result ≤ length bytes.now }
{
    bytes
        .iter()
        .position(|byte| !byte.is_ascii_hexdigit())
        .unwrap_or(bytes.len())
}

/// The bytes that hexadecimal digits stand for, two digits a byte. A 0 is put before an odd number
/// of digits.
#[tactic(auto, unfolding(crate::specs::Hexadecimal::paired))]
pub fn bytes_of_digits(alloc: Global, digits: &[u8]) -> Result<Text, NoMemory>
    ensures { IfOk result (λ text. text ≡ bytes_of_digits digits.now) }
{
    let mut text = Text::new(alloc);
    text.reserve(digits.len() / 2 + digits.len() % 2)?;
    if digits.len() % 2 == 1 {
        text.push(digit_value(digits[0]))?;
        push_pairs(&mut text, &digits[1..])?;
        return Ok(text);
    }
    push_pairs(&mut text, digits)?;
    Ok(text)
}

/// Appends the bytes that these pairs of digits stand for.
#[tactic(auto, using(crate::proofs::HexDigits::paired_steps))]
fn push_pairs(text: &mut Text, digits: &[u8]) -> Result<(), NoMemory>
    ensures { OnOk result (text.new ≡ text.old ++ paired digits.now) }
{
    let mut at = 0;
    while at + 1 < digits.len() {
        text.push(16 * digit_value(digits[at]) + digit_value(digits[at + 1]))?;
        at += 2;
    }
    Ok(())
}

/// The value of a hexadecimal digit, and 0 for any other byte.
fn digit_value(digit: u8) -> u8
    ensures value { result ≡ digit_value digit }
    ensures small { result < 16 }
{
    match digit {
        b'0'..=b'9' => digit - b'0',
        b'A'..=b'F' => digit - b'A' + 10,
        b'a'..=b'f' => digit - b'a' + 10,
        _ => 0,
    }
}
