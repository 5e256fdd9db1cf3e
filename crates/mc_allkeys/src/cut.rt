ghost use Rattle.std.specs.Prelude.{◌≡◌, ◌==◌, ◌<◌, [], ◌∷◌, length, position, IfSome, MatchOption};
ghost use Rattle.std.specs.Prelude.{Some, None};
ghost use Rattle.mc_allkeys.specs.Cuts.{cut_at, parts_at};

/// What stands before the first byte of this value, and what behind it; None where there is none.
pub(crate) fn cut(text: &[u8], byte: u8) -> Option<(&[u8], &[u8])>
    ensures cut { MatchOption result (cut_at byte text.now ≡ None)
        (λ cut. cut_at byte text.now ≡ Some (cut.0.now, cut.1.now)) }
    ensures parts { MatchOption result (parts_at byte text.now ≡ text.now ∷ [])
        (λ cut. parts_at byte text.now ≡ cut.0.now ∷ parts_at byte cut.1.now) }
    ensures shorter { IfSome result (λ cut. length cut.1.now < length text.now) }
{
    match place_of(text, byte) {
        Some(place) => Some((&text[..place], &text[place + 1..])),
        None => None,
    }
}

/// The place of the first byte of this value.
fn place_of(text: &[u8], byte: u8) -> Option<usize>
    ensures first { result ≡ position (λ b. b == byte) text.now }
    ensures within { IfSome result (λ place. place < length text.now) }
{
    text.iter().position(|b| *b == byte)
}
