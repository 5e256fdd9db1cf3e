ghost use Rattle.mc_charset.specs.Chars.{IsWellFormed};
ghost use Rattle.mc_convert.specs.Conversion.{IsLossless, is_binary};
ghost use Rattle.mc_convert.specs.Kept.{IsKept, KeepsEachText, has_spellings_of};
ghost use Rattle.std.specs.Bool.{MatchBool, OnTrue};
ghost use Rattle.std.specs.Prelude.{◌≡◌, ◌↔◌, ℕ, List, IsTrue, false};

use crate::plain::are_plain;
use mc_charset::{Charset, chars_law, wider_law};

/// Whether each well-formed text of a set has the same bytes in another one, so that none needs to
/// be converted: that set has each spelling of the first one, or it is binary. No character of such
/// a text is lost. MySQL 8.0 manual, 10.9 and 10.10.
pub fn keeps_bytes(from: Charset, to: Charset) -> bool
    ensures exactly { IsTrue result ↔ KeepsEachText from to }
    ensures lossless { OnTrue result
        ((text : List ℕ) → IsWellFormed from text → IsLossless from to text) }
{
    chars_law();
    wider_law();
    has_spellings(to, from)
}

/// Whether a set has each spelling of the other one. Binary has them all, as bytes.
fn has_spellings(to: Charset, from: Charset) -> bool
    ensures { result ≡ has_spellings_of to from }
{
    match to {
        Charset::Latin1 => matches!(from, Charset::Latin1 | Charset::Ascii),
        Charset::Ascii => matches!(from, Charset::Ascii),
        Charset::Utf8mb3 => matches!(from, Charset::Utf8mb3 | Charset::Ascii),
        Charset::Utf8mb4 => matches!(from, Charset::Utf8mb4 | Charset::Utf8mb3 | Charset::Ascii),
        Charset::Ucs2 => matches!(from, Charset::Ucs2),
        Charset::Utf16 => matches!(from, Charset::Utf16 | Charset::Ucs2),
        Charset::Utf32 => matches!(from, Charset::Utf32),
        Charset::Binary => true,
    }
}

/// Whether the text is seen to have the same bytes in another set: each text has, as in binary, or
/// both sets spell ASCII alike and the text is ASCII.
pub(crate) fn keeps_text(from: Charset, to: Charset, text: &[u8]) -> bool
    requires { IsWellFormed from text.now }
    ensures { MatchBool result (IsKept from to text.now) (is_binary to ≡ false) }
{
    if keeps_bytes(from, to) {
        return true;
    }
    are_plain(from, to, text)
}
