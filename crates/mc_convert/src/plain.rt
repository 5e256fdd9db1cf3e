ghost use Rattle.mc_convert.specs.Plain.{IsPlain, SpellsAscii};
ghost use Rattle.std.specs.Bool.{OnTrue};

use mc_charset::{Charset, chars_law};

/// Whether both sets spell the characters below U+0080 as their bytes and the text has no others.
/// It looks at many bytes a step.
#[inline(always)]
pub(crate) fn are_plain(from: Charset, to: Charset, text: &[u8]) -> bool
    ensures { OnTrue result (IsPlain from text.now × IsPlain to text.now) }
{
    spells_ascii(from) && spells_ascii(to) && text.is_ascii()
}

/// Whether the set spells the characters below U+0080 as their bytes and the text has no others.
#[inline(always)]
pub(crate) fn is_plain(set: Charset, text: &[u8]) -> bool
    ensures { OnTrue result (IsPlain set text.now) }
{
    spells_ascii(set) && text.is_ascii()
}

/// Whether the set spells the characters below U+0080 as their bytes.
#[inline(always)]
fn spells_ascii(set: Charset) -> bool
    ensures { OnTrue result (SpellsAscii set) }
{
    chars_law();
    match set {
        Charset::Ucs2 | Charset::Utf16 | Charset::Utf32 => false,
        Charset::Latin1 | Charset::Ascii | Charset::Utf8mb3 | Charset::Utf8mb4 | Charset::Binary =>
            true,
    }
}
