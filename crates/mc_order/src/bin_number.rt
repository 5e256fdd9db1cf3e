ghost use Rattle.mc_charset.specs.Chars.{code_points, spell};
ghost use Rattle.mc_order.specs.Bin.{bin_number};
ghost use Rattle.std.specs.Prelude.{◌≡◌, ◌<◌, Some, length};

use mc_charset::{Charset, Encoding};

/// The number that a character compares by: its byte in a set of one-byte spellings, else its code
/// point.
#[tactic(auto, unfolding(crate::specs::Bin::bin_number))]
#[inline(always)]
pub(crate) fn bin_number<E: Encoding>(code: u32, spelling: &[u8]) -> u32
    requires spelled { spell E.set code ≡ Some spelling.now }
    requires some { 0 < length spelling.now }
    requires is_code_point { code < code_points }
    ensures value { result ≡ bin_number E.set code }
    ensures small { result < code_points }
{
    match E::charset() {
        Charset::Latin1 | Charset::Ascii | Charset::Binary => u32::from(spelling[0]),
        Charset::Utf8mb3 | Charset::Utf8mb4 | Charset::Ucs2 | Charset::Utf16 | Charset::Utf32 =>
            code,
    }
}
