ghost use Rattle.std.specs.Prelude.{◌≡◌, ◌++◌, ◌∷◌, [], ◌≤◌, length, MatchOption};
ghost use Rattle.std.specs.List.{position_or_len};
ghost use Rattle.mc_base.specs.Blanks.{is_blank, without_leading};
ghost use Rattle.mc_base.specs.Fields.{fields_of};

use crate::blanks::{is_blank, trim_start};

/// The first field of a line's body, and the bytes that follow it; None where no field is left.
pub fn next_field(body: &[u8]) -> Option<(&[u8], &[u8])>
    ensures field { MatchOption result (fields_of body.now ≡ [])
        (λ found. fields_of body.now ≡ found.0.now ∷ fields_of found.1.now) }
    ensures parts { MatchOption result (without_leading body.now ≡ [])
        (λ found. without_leading body.now ≡ found.0.now ++ found.1.now) }
{
    let text = trim_start(body);
    if text.is_empty() {
        return None;
    }
    Some(text.split_at(end_of_field(text)))
}

/// How many bytes stand before the first blank.
fn end_of_field(text: &[u8]) -> usize
    ensures end { result ≡ position_or_len is_blank text.now }
    ensures bound { result ≤ length text.now }
{
    for (i, byte) in text.iter().enumerate() {
        if is_blank(*byte) {
            return i;
        }
    }
    text.len()
}
