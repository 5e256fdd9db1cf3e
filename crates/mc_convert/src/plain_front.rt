ghost use Rattle.mc_charset.specs.Chars.{spell_all};
ghost use Rattle.mc_convert.specs.Plain.{IsPlain, after_one_zero, after_three_zeros};
ghost use Rattle.std.specs.Option.{option_map};
ghost use Rattle.std.specs.Prelude.{
  ◌≡◌,
  ◌++◌,
  ◌<◌,
  ◌≤◌,
  ℕ,
  Some,
  length,
  slice_index,
  take,
  IfSome,
  OnOk,
  OnErr,
};

use crate::plain::is_plain;
use mc_base::{NoMemory, Text};
use mc_charset::{Charset, Encoding};

/// How many bytes of ASCII are taken at once.
pub(crate) const FRONT_LEN: usize = 8;

/// The first bytes, where they are ASCII and the set spells these characters so. A look at both
/// ends of them comes first.
#[inline(always)]
pub(crate) fn plain_front<F: Encoding>(text: &[u8]) -> Option<&[u8; 8]>
    ensures { IfSome result (λ front. (front.now ≡ take 8 text.now) × (8 ≤ length text.now)
        × IsPlain F.set front.now) }
{
    let Some((front, _)) = text.split_first_chunk::<FRONT_LEN>() else {
        return None;
    };
    if front[0] < 0x80 && front[7] < 0x80 && is_plain(F::charset(), front) {
        Some(front)
    } else {
        None
    }
}

/// Appends these characters below U+0080, all at once.
#[inline(always)]
pub(crate) fn put_plain<T: Encoding>(front: &[u8; 8], out: &mut Text) -> Result<(), NoMemory>
    requires { (k : ℕ) → slice_index front.now k < 0x80 }
    ensures ok { OnOk result
        (option_map (λ piece. out.old ++ piece) (spell_all T.set front.now) ≡ Some out.new) }
    ensures err { OnErr result (out.new ≡ out.old) }
{
    match T::charset() {
        Charset::Latin1 | Charset::Ascii | Charset::Utf8mb3 | Charset::Utf8mb4 | Charset::Binary =>
            out.extend_from_slice(front),
        Charset::Ucs2 | Charset::Utf16 => out.extend_from_slice(&in_two_bytes(front)),
        Charset::Utf32 => out.extend_from_slice(&in_four_bytes(front)),
    }
}

/// Each byte behind a zero byte.
#[inline(always)]
fn in_two_bytes(front: &[u8; 8]) -> [u8; 16]
    ensures { result ≡ after_one_zero front.now }
{
    let [a, b, c, d, e, f, g, h] = *front;
    [0, a, 0, b, 0, c, 0, d, 0, e, 0, f, 0, g, 0, h]
}

/// Each byte behind three zero bytes.
#[inline(always)]
fn in_four_bytes(front: &[u8; 8]) -> [u8; 32]
    ensures { result ≡ after_three_zeros front.now }
{
    let [a, b, c, d, e, f, g, h] = *front;
    [
        0, 0, 0, a, 0, 0, 0, b, 0, 0, 0, c, 0, 0, 0, d, 0, 0, 0, e, 0, 0, 0, f, 0, 0, 0, g, 0, 0,
        0, h,
    ]
}
