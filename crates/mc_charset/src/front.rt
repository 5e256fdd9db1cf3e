ghost use Rattle.mc_charset.specs.NextChar.{IsFound, IsNextChar, HeadsChars};
ghost use Rattle.mc_charset.specs.Tables.{rows};

use crate::char_at::CharAt;
use crate::charset::Charset;
use crate::{bytes, latin1, utf8, wide};

/// The character whose spelling begins the text: its code point, and its length in bytes.
/// `End` exactly for the empty text, `Bad` exactly where no spelling of the set begins the text.
/// Unicode Standard, 3.9 and Table 3-7; MySQL 8.0 manual, 10.9 and 10.10.
pub fn next_char(set: Charset, text: &[u8]) -> CharAt
    ensures first { IsNextChar set text.now result }
    ensures heads { HeadsChars set text.now result }
{
    found(set, text)
}

/// What the rows of the set have at the front of the text.
fn found(set: Charset, text: &[u8]) -> CharAt
    ensures { IsFound (rows set) text.now result }
{
    match set {
        Charset::Utf8mb4 => utf8::next(text),
        Charset::Latin1 => latin1::next(text),
        Charset::Utf8mb3 => utf8::next_short(text),
        Charset::Ascii => bytes::next_ascii(text),
        Charset::Binary => bytes::next_binary(text),
        Charset::Ucs2 => wide::next_ucs2(text),
        Charset::Utf16 => wide::next_utf16(text),
        Charset::Utf32 => wide::next_utf32(text),
    }
}
