ghost use Rattle.std.specs.Prelude.{◌≡◌, ◌<◌, ◌+◌, ◌*◌, Some, IfSome};
ghost use Rattle.mc_base.specs.Hex.{hex_digit, hex_number_of};

/// The number of one to six hexadecimal digits, upper or lower case; None where the bytes are
/// something else.
pub fn hex_number(digits: &[u8]) -> Option<u32>
    ensures { result ≡ hex_number_of digits.now }
{
    if digits.is_empty() || digits.len() > 6 {
        return None;
    }
    let mut number = 0;
    for code in digits {
        number = number * 16 + hex_digit(*code)?;
    }
    Some(number)
}

/// The value of one digit, by its ASCII code.
fn hex_digit(code: u8) -> Option<u32>
    ensures value { result ≡ hex_digit code }
    ensures small { IfSome result (λ digit. digit < 16) }
{
    match code {
        b'0'..=b'9' => Some(u32::from(code - b'0')),
        b'A'..=b'F' => Some(u32::from(code - b'A') + 10),
        b'a'..=b'f' => Some(u32::from(code - b'a') + 10),
        _ => None,
    }
}
