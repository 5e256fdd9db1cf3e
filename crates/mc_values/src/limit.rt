ghost use Rattle.mc_values.specs.Values.{greatest_string, within_limit};
ghost use Rattle.std.specs.Prelude.{◌≡◌, ◌≤◌, IfSome, length, nat_le};

use mc_base::Text;

/// The greatest length of a string, in bytes.
pub const GREATEST_STRING: usize = 1_048_576;

/// Whether a string may have so many bytes.
pub fn is_within_limit(len: usize) -> bool
    ensures { result ≡ nat_le len greatest_string }
{
    len <= GREATEST_STRING
}

/// The text as the value of a literal or of a function: None, which is NULL, exactly where it is
/// longer than the greatest length.
pub fn within_limit(text: Text) -> Option<Text>
    ensures is { result ≡ within_limit text }
    ensures same { IfSome result (λ kept. kept ≡ text) }
    ensures short { IfSome result (λ kept. length kept ≤ greatest_string) }
{
    if is_within_limit(text.len()) {
        Some(text)
    } else {
        None
    }
}
