ghost use Rattle.mc_strfun.specs.Numbers.{greatest_count, natural};
ghost use Rattle.std.specs.Prelude.{◌≡◌, min};

/// The number, or 0 where it is negative.
pub(crate) fn natural(number: i64) -> u64
    ensures { result ≡ natural number }
{
    if number < 0 { 0 } else { number as u64 }
}

/// The number, or the greatest number of 32 bits where it is greater.
pub(crate) fn bounded(number: u64) -> u32
    ensures { result ≡ min number greatest_count }
{
    if number < u64::from(u32::MAX) {
        number as u32
    } else {
        u32::MAX
    }
}
