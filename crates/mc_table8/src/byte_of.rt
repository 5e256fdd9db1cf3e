ghost use Rattle.mc_charset.specs.Chars.{spell};
ghost use Rattle.mc_order.specs.Meaning.{IsCharOf};
ghost use Rattle.mc_table8.specs.Table8Meaning.{is_byte_set};
ghost use Rattle.std.specs.Prelude.{◌≡◌, [], ◌∷◌, Some, IsTrue};

use mc_charset::{Charset, byte_of};

/// The byte that spells a character in latin1 or ascii.
pub(crate) fn byte_in(charset: Charset, code: u32) -> u8
    requires on_bytes { IsTrue (is_byte_set charset) }
    requires in_set { IsCharOf charset code }
    ensures { spell charset code ≡ Some (result ∷ []) }
{
    match byte_of(charset, code) {
        Some(byte) => byte,
        None => 0,
    }
}
