ghost use Rattle.mc_charset.specs.PutChar.{bytes_of};
ghost use Rattle.std.specs.Option.{option_map};
ghost use Rattle.mc_charset.specs.Rows.{spelling_in};
ghost use Rattle.std.specs.Prelude.{◌≡◌};
ghost use Rattle.mc_charset.specs.NextChar.{IsFound};
ghost use Rattle.mc_charset.specs.Tables.{rows};
ghost use Rattle.mc_charset.specs.declared.charset.Charset.TheVariants.{Ascii, Binary};

use crate::char_at::CharAt;
use crate::spelling::Spelling;

/// The first character of a text in ascii.
#[inline(always)]
pub(crate) fn next_ascii(text: &[u8]) -> CharAt
    ensures { IsFound (rows Ascii) text.now result }
{
    match *text {
        [] => CharAt::End,
        [byte @ 0x00..=0x7F, ..] => CharAt::Char {
            code: u32::from(byte),
            len: 1,
        },
        _ => CharAt::Bad,
    }
}

/// The first byte of binary data.
#[inline(always)]
pub(crate) fn next_binary(text: &[u8]) -> CharAt
    ensures { IsFound (rows Binary) text.now result }
{
    match *text {
        [] => CharAt::End,
        [byte, ..] => CharAt::Char {
            code: u32::from(byte),
            len: 1,
        },
    }
}

/// The spelling of a code point in ascii.
#[inline(always)]
pub(crate) fn spelling_ascii(code: u32) -> Option<Spelling>
    ensures { option_map bytes_of result ≡ spelling_in (rows Ascii) code }
{
    match code {
        0x00..=0x7F => Some(Spelling::One([code as u8])),
        _ => None,
    }
}

/// The byte of this number.
#[inline(always)]
pub(crate) fn spelling_binary(code: u32) -> Option<Spelling>
    ensures { option_map bytes_of result ≡ spelling_in (rows Binary) code }
{
    match code {
        0x00..=0xFF => Some(Spelling::One([code as u8])),
        _ => None,
    }
}
