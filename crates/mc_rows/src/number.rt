ghost use Rattle.std.specs.Prelude.{◌≡◌, ◌≤◌, ◌+◌, IfSome, length};
ghost use Rattle.std.specs.Bool.{OnTrue};
ghost use Rattle.std.specs.Str.Parse.{starts_with_minus};
ghost use Rattle.mc_rows.specs.Numbers.{bigint_of, greatest_bigint, magnitude, negative};

/// The greatest bigint.
const GREATEST: u64 = i64::MAX as u64;

/// The bigint that an optional `-` and digits write; None exactly where the field is something else
/// or the number is outside 64 bits.
#[tactic(auto, unfolding(crate::specs::Numbers::bigint_of))]
pub(crate) fn bigint_of(field: &[u8]) -> Option<i64>
    ensures { result ≡ bigint_of field.now }
{
    if starts_with_minus(field) {
        return match magnitude(&field[1..], GREATEST + 1) {
            Some(size) => Some(negative(size)),
            None => None,
        };
    }
    match magnitude(field, GREATEST) {
        Some(size) => Some(size as i64),
        None => None,
    }
}

/// Whether the field begins with `-`.
fn starts_with_minus(field: &[u8]) -> bool
    ensures is { result ≡ starts_with_minus field.now }
    ensures some { OnTrue result (1 ≤ length field.now) }
{
    !field.is_empty() && field[0] == b'-'
}

/// The number with its sign turned.
fn negative(size: u64) -> i64
    requires { size ≤ greatest_bigint + 1 }
    ensures { result ≡ negative size }
{
    if size > GREATEST {
        return i64::MIN;
    }
    -(size as i64)
}

/// The number that decimal digits write, if it is at most so great.
#[tactic(auto, using(crate::proofs::Written::digit_steps))]
fn magnitude(digits: &[u8], most: u64) -> Option<u64>
    requires { most ≤ greatest_bigint + 1 }
    ensures is { result ≡ magnitude most digits.now }
    ensures small { IfSome result (λ size. size ≤ most) }
{
    if digits.is_empty() {
        return None;
    }
    let mut value: u64 = 0;
    for digit in digits {
        if !digit.is_ascii_digit() {
            return None;
        }
        value = value
            .saturating_mul(10)
            .saturating_add(u64::from(*digit - b'0'));
        if value > most {
            return None;
        }
    }
    Some(value)
}
