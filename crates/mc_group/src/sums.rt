ghost use Rattle.mc_group.specs.Order.{number_in};
ghost use Rattle.mc_group.specs.Sums.{is_null, sum_of, total};
ghost use Rattle.std.specs.List.{list_all};
ghost use Rattle.std.specs.Prelude.{◌≡◌};

use crate::values::is_null;
use mc_base::List;
use mc_values::Value;

/// Why there is no sum.
#[derive(Clone, Copy, Debug, PartialEq, Eq)]
pub enum SumFault {
    /// The whole sum is outside 64 bits.
    OutOfRange,
}

/// The number of a value, 0 where it is none.
fn number_in(value: &Value) -> i64
    ensures { result ≡ number_in value.now }
{
    match value {
        Value::Int(number) => *number,
        Value::Null => 0,
        Value::Str { .. } => 0,
    }
}

/// Whether all values are NULL.
fn are_null(values: &[Value]) -> bool
    ensures { result ≡ list_all is_null values.now }
{
    values.iter().all(|value| is_null(value))
}

/// The numbers together.
// So many numbers of 64 bits as there may be, fewer than 2^64, fit 128 bits.
fn total_of(values: &[Value]) -> i128
    ensures { result ≡ total values.now }
{
    let mut sum: i128 = 0;
    for value in values {
        sum += i128::from(number_in(value));
    }
    sum
}

/// The sum of the numbers, in 128 bits until it is whole: NULL where all values are NULL, and
/// `OutOfRange` exactly where the whole sum is outside 64 bits.
#[tactic(auto, unfolding(crate::specs::Sums::sum_of), using(crate::proofs::Ranges::ranges))]
pub fn sum(values: &List<Value>) -> Result<Value, SumFault>
    ensures { result ≡ sum_of values.now }
{
    if are_null(values.as_slice()) {
        return Ok(Value::Null);
    }
    match i64::try_from(total_of(values.as_slice())) {
        Ok(number) => Ok(Value::Int(number)),
        Err(_) => Err(SumFault::OutOfRange),
    }
}
