ghost use Rattle.mc_charset.specs.PutChar.{bytes_of};
ghost use Rattle.std.specs.Option.{option_map};
ghost use Rattle.mc_charset.specs.Rows.{spelling_in, sequence};
ghost use Rattle.mc_charset.specs.NextChar.{IsFound};
ghost use Rattle.mc_charset.specs.Tables.{
  from_to,
  two_byte_rows,
  surrogate_pair_rows,
  four_byte_rows,
};
ghost use Rattle.std.specs.Prelude.{◌≡◌, ◌<◌, ◌+◌, ◌*◌, ◌++◌, ◌%◌, ◌∷◌, []};

use crate::char_at::CharAt;
use crate::spelling::Spelling;

/// The first character of a text in ucs2: two bytes, no surrogate.
#[inline(always)]
pub(crate) fn next_ucs2(text: &[u8]) -> CharAt
    ensures { IsFound two_byte_rows text.now result }
{
    match *text {
        [] => CharAt::End,
        [a @ 0x00..=0xD7, b, ..] => CharAt::Char {
            code: unit(a, b),
            len: 2,
        },
        [a @ 0xE0..=0xFF, b, ..] => CharAt::Char {
            code: unit(a, b),
            len: 2,
        },
        _ => CharAt::Bad,
    }
}

/// The first character of a text in utf16: two bytes, or the four of a surrogate pair.
#[inline(always)]
pub(crate) fn next_utf16(text: &[u8]) -> CharAt
    ensures { IsFound (two_byte_rows ++ surrogate_pair_rows) text.now result }
{
    match *text {
        [0xD8..=0xDF, ..] => next_pair(text),
        _ => next_ucs2(text),
    }
}

/// The first surrogate pair.
#[inline(always)]
fn next_pair(text: &[u8]) -> CharAt
    ensures { IsFound surrogate_pair_rows text.now result }
{
    match *text {
        [] => CharAt::End,
        [a @ 0xD8..=0xDB, b, c @ 0xDC..=0xDF, d, ..] => CharAt::Char {
            code: pair(unit(a - 0xD8, b), unit(c - 0xDC, d)),
            len: 4,
        },
        _ => CharAt::Bad,
    }
}

/// The first character of a text in utf32: four bytes, no surrogate, up to 10FFFF.
#[inline(always)]
pub(crate) fn next_utf32(text: &[u8]) -> CharAt
    ensures { IsFound four_byte_rows text.now result }
{
    match *text {
        [] => CharAt::End,
        [0x00, 0x00, c @ 0x00..=0xD7, d, ..] => CharAt::Char {
            code: unit(c, d),
            len: 4,
        },
        [0x00, 0x00, c @ 0xE0..=0xFF, d, ..] => CharAt::Char {
            code: unit(c, d),
            len: 4,
        },
        [0x00, b @ 0x01..=0x10, c, d, ..] => CharAt::Char {
            code: u32::from(b) * 65536 + unit(c, d),
            len: 4,
        },
        _ => CharAt::Bad,
    }
}

#[inline(always)]
fn unit(high: u8, low: u8) -> u32
    ensures { result ≡ high * 256 + low }
{
    u32::from(high) * 256 + u32::from(low)
}

#[inline(always)]
fn pair(high: u32, low: u32) -> u32
    requires high { high < 1024 }
    requires low { low < 1024 }
    ensures { result ≡ 0x10000 + high * 1024 + low }
{
    0x10000 + high * 1024 + low
}

/// The spelling of a code point in ucs2.
#[inline(always)]
pub(crate) fn spelling_ucs2(code: u32) -> Option<Spelling>
    ensures { option_map bytes_of result ≡ spelling_in two_byte_rows code }
{
    match code {
        0x0000..=0xD7FF | 0xE000..=0xFFFF => Some(Spelling::Two([(code / 0x100) as u8, low(code)])),
        _ => None,
    }
}

/// The spelling of a code point in utf16.
#[inline(always)]
pub(crate) fn spelling_utf16(code: u32) -> Option<Spelling>
    ensures { option_map bytes_of result ≡ spelling_in (two_byte_rows ++ surrogate_pair_rows) code }
{
    match code {
        0x10000..=0x10FFFF => Some(surrogates(code - 0x10000)),
        _ => spelling_ucs2(code),
    }
}

/// The surrogate pair of the code point at this place above FFFF.
#[inline(always)]
fn surrogates(place: u32) -> Spelling
    requires { place < 0x100000 }
    ensures { bytes_of result ≡ sequence (from_to 0xD8 0xDB ∷ from_to 0x00 0xFF ∷ from_to 0xDC 0xDF
        ∷ from_to 0x00 0xFF ∷ []) place }
{
    Spelling::Four([
        0xD8 + (place / 0x40000) as u8,
        low(place / 0x400),
        0xDC + (place / 0x100 % 4) as u8,
        low(place),
    ])
}

/// The spelling of a code point in utf32.
#[inline(always)]
pub(crate) fn spelling_utf32(code: u32) -> Option<Spelling>
    ensures { option_map bytes_of result ≡ spelling_in four_byte_rows code }
{
    match code {
        0x0000..=0xD7FF | 0xE000..=0x10FFFF => Some(Spelling::Four([
            0x00,
            (code / 0x10000) as u8,
            low(code / 0x100),
            low(code),
        ])),
        _ => None,
    }
}

/// The last eight bits.
#[inline(always)]
fn low(bits: u32) -> u8
    ensures { result ≡ bits % 0x100 }
{
    (bits % 0x100) as u8
}
