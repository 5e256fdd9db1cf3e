ghost use Rattle.mc_charset.specs.Chars.{IsWellFormed};
ghost use Rattle.std.specs.Prelude.{◌<◌, ◌↔◌, IsTrue, EachIndex, slice_index};

use crate::char_at::CharAt;
use crate::charset::Charset;
use crate::encoding::{Encoding, next_in};
use crate::encodings::{Ucs2, Utf16, Utf32};

/// Whether some characters of the set spell the text.
pub fn is_well_formed(set: Charset, text: &[u8]) -> bool
    ensures { IsTrue result ↔ IsWellFormed set text.now }
{
    match set {
        Charset::Latin1 | Charset::Binary => true,
        Charset::Ascii => text.is_ascii(),
        Charset::Utf8mb4 => simdutf8::is_utf8(text),
        Charset::Utf8mb3 => simdutf8::is_utf8(text) && is_below_f0(text),
        Charset::Ucs2 => is_spelled::<Ucs2>(text),
        Charset::Utf16 => is_spelled::<Utf16>(text),
        Charset::Utf32 => is_spelled::<Utf32>(text),
    }
}

/// Whether the text has no byte that begins a row of four bytes in Table 3-7.
fn is_below_f0(text: &[u8]) -> bool
    ensures { IsTrue result ↔ EachIndex text.now (λ k. slice_index text.now k < 0xF0) }
{
    text.iter().all(|byte| *byte < 0xF0)
}

/// Goes over one character after the other.
fn is_spelled<E: Encoding>(text: &[u8]) -> bool
    ensures { IsTrue result ↔ IsWellFormed E.set text.now }
{
    let mut rest = text;
    loop {
        match next_in::<E>(rest) {
            CharAt::Char { len, .. } => rest = &rest[len..],
            CharAt::End => return true,
            CharAt::Bad => return false,
        }
    }
}
