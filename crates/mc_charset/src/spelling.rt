ghost use Rattle.mc_charset.specs.Chars.{spell};
ghost use Rattle.mc_charset.specs.PutChar.{bytes_of};
ghost use Rattle.std.specs.Option.{option_map};
ghost use Rattle.std.specs.Prelude.{◌≡◌, ◌++◌, OnOk, OnErr};

use crate::charset::Charset;
use crate::{bytes, latin1, utf8, wide};
use mc_base::{NoMemory, Text};

/// The bytes that spell a character.
#[derive(Clone, Copy)]
pub enum Spelling {
    One([u8; 1]),
    Two([u8; 2]),
    Three([u8; 3]),
    Four([u8; 4]),
}

impl Spelling {
    /// The spelling of a code point in the set, where the set has it.
    #[tactic(auto, unfolding(crate::specs::Chars::spell))]
    pub(crate) fn of(set: Charset, code: u32) -> Option<Spelling>
        ensures { option_map bytes_of result ≡ spell set code }
    {
        match set {
            Charset::Utf8mb4 => utf8::spelling(code),
            Charset::Latin1 => latin1::spelling(code),
            Charset::Utf8mb3 => utf8::spelling_short(code),
            Charset::Ascii => bytes::spelling_ascii(code),
            Charset::Binary => bytes::spelling_binary(code),
            Charset::Ucs2 => wide::spelling_ucs2(code),
            Charset::Utf16 => wide::spelling_utf16(code),
            Charset::Utf32 => wide::spelling_utf32(code),
        }
    }

    /// Appends its bytes.
    #[inline(always)]
    pub(crate) fn put(&self, out: &mut Text) -> Result<(), NoMemory>
        ensures ok { OnOk result (out.new ≡ out.old ++ bytes_of self.now) }
        ensures err { OnErr result (out.new ≡ out.old) }
    {
        match self {
            Spelling::One(bytes) => out.extend_from_slice(bytes),
            Spelling::Two(bytes) => out.extend_from_slice(bytes),
            Spelling::Three(bytes) => out.extend_from_slice(bytes),
            Spelling::Four(bytes) => out.extend_from_slice(bytes),
        }
    }

    /// Its bytes in order.
    pub(crate) fn as_slice(&self) -> &[u8]
        ensures { result.now ≡ bytes_of self.now }
    {
        match self {
            Spelling::One(bytes) => bytes,
            Spelling::Two(bytes) => bytes,
            Spelling::Three(bytes) => bytes,
            Spelling::Four(bytes) => bytes,
        }
    }
}
