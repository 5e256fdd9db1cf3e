ghost use Rattle.std.specs.Prelude.{◌≡◌, ◌≤◌, ◌<◌, ◌==◌, length, IfSome, position};
ghost use Rattle.std.specs.List.{position_or_len};

/// The place of the first byte of this value, or the length where there is none.
#[tactic(auto, using(crate::proofs::PlaceLemmas::place_found, crate::proofs::PlaceLemmas::place_missing))]
pub(crate) fn place_of(bytes: &[u8], wanted: u8) -> usize
    ensures place { result ≡ position_or_len (λ byte. byte == wanted) bytes.now }
    ensures bound { result ≤ length bytes.now }
{
    match index_of(bytes, wanted) {
        Some(place) => place,
        None => bytes.len(),
    }
}

/// The index of the first byte of this value.
fn index_of(bytes: &[u8], wanted: u8) -> Option<usize>
    ensures first { result ≡ position (λ byte. byte == wanted) bytes.now }
    ensures within { IfSome result (λ i. i < length bytes.now) }
{
    bytes.iter().position(|byte| *byte == wanted)
}
