ghost use Rattle.mc_charset.specs.Chars.{chars, IsWellFormed};
ghost use Rattle.mc_uca.specs.Weighing.{is_of_set};
ghost use Rattle.std.specs.Prelude.{◌≡◌, ◌≤◌, true, length, take, drop};

use mc_charset::{CharAt, Encoding, chars_law, next_in};

/// How many characters are looked at together: as many as the longest contraction has.
pub(crate) const WINDOW: usize = 6;

/// Writes the first characters of a text into a window, up to `most`; how many these are.
#[tactic(auto, using(crate::proofs::CodeLemmas::fronts))]
pub(crate) fn first_codes<E: Encoding>(text: &[u8], most: usize, window: &mut [u32; 6]) -> usize
    requires { most ≤ 6 }
    ensures codes { take result window.new ≡ take most (chars E.set text.now) }
    ensures of_set { is_of_set E.set (take result window.new) ≡ true }
    ensures within { result ≤ 6 }
{
    let mut rest = text;
    for count in 0..most {
        match next_in::<E>(rest) {
            CharAt::Char { code, len } => {
                window[count] = code;
                rest = &rest[len..];
            }
            CharAt::End | CharAt::Bad => return count,
        }
    }
    most
}

/// What stands behind a text's first characters, so many.
#[tactic(auto, using(crate::proofs::CodeLemmas::fronts))]
pub(crate) fn behind_codes<E: Encoding>(text: &[u8], count: usize) -> &[u8]
    ensures { chars E.set result.now ≡ drop count (chars E.set text.now) }
{
    let mut rest = text;
    for _ in 0..count {
        match next_in::<E>(rest) {
            CharAt::Char { len, .. } => rest = &rest[len..],
            CharAt::End | CharAt::Bad => return rest,
        }
    }
    rest
}

/// The first characters of a text, so many, or all where it has no more.
pub(crate) fn front_codes<E: Encoding>(text: &[u8], count: u32) -> &[u8]
    requires { IsWellFormed E.set text.now }
    ensures { chars E.set result.now ≡ take count (chars E.set text.now) }
{
    chars_law();
    let mut at = 0;
    for _ in 0..count {
        match next_in::<E>(&text[at..]) {
            CharAt::Char { len, .. } => at += len,
            CharAt::End => return text,
            CharAt::Bad => return text,
        }
    }
    &text[..at]
}
