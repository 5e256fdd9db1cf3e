ghost use Rattle.std.specs.Prelude.{◌≡◌, ◌≤◌, Some, None, length, MatchOption};
ghost use Rattle.std.specs.Char.{is_ascii_digit};
ghost use Rattle.mc_token.specs.Numbers.{decimals_len, int_of};
ghost use Rattle.mc_token.specs.Spelled.{AreAll};

/// The greatest number that is a token.
const GREATEST: u64 = i64::MAX as u64;

/// How many decimal digits these bytes begin with.
pub fn decimals_len(bytes: &[u8]) -> usize
    ensures value { result ≡ decimals_len bytes.now }
    ensures within { result ≤ length bytes.now }
{
    bytes
        .iter()
        .position(|byte| !byte.is_ascii_digit())
        .unwrap_or(bytes.len())
}

/// The number that these digits write, where it isn't too great.
pub fn int_of(digits: &[u8]) -> Option<i64>
    requires { AreAll is_ascii_digit digits.now }
    ensures { result ≡ int_of digits.now }
{
    let mut value = 0;
    for digit in digits {
        if value > GREATEST / 10 {
            return None;
        }
        value = 10 * value + u64::from(*digit - b'0');
        if value > GREATEST {
            return None;
        }
    }
    Some(value as i64)
}
