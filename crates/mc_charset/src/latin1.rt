ghost use Rattle.mc_charset.specs.PutChar.{bytes_of};
ghost use Rattle.std.specs.Option.{option_map};
ghost use Rattle.mc_charset.specs.NextChar.{IsFound};
ghost use Rattle.mc_charset.specs.Rows.{first_in, spelling_in};
ghost use Rattle.mc_charset.specs.Tables.{rows, latin1_rows_80_to_9f};
ghost use Rattle.mc_charset.specs.declared.charset.Charset.TheVariants.{Latin1};
ghost use Rattle.std.specs.Prelude.{◌≡◌, ℕ, List, ◌∷◌, take, drop};

use crate::char_at::CharAt;
use crate::spelling::Spelling;

/// The code points of the bytes 80 to 9F: Windows code page 1252, and the control characters at its
/// five gaps.
const CODES_80_TO_9F: [u16; 32] = [
    0x20AC, 0x0081, 0x201A, 0x0192, 0x201E, 0x2026, 0x2020, 0x2021, 0x02C6, 0x2030, 0x0160, 0x2039,
    0x0152, 0x008D, 0x017D, 0x008F, 0x0090, 0x2018, 0x2019, 0x201C, 0x201D, 0x2022, 0x2013, 0x2014,
    0x02DC, 0x2122, 0x0161, 0x203A, 0x0153, 0x009D, 0x017E, 0x0178,
];

/// The first character of a text in latin1: each byte is one.
#[inline(always)]
pub(crate) fn next(text: &[u8]) -> CharAt
    ensures { IsFound (rows Latin1) text.now result }
{
    match *text {
        [] => CharAt::End,
        [byte, ..] => CharAt::Char {
            code: code_of(byte),
            len: 1,
        },
    }
}

/// The code point of a byte.
#[inline(always)]
fn code_of(byte: u8) -> u32
    ensures { (rest : List ℕ) → first_in (rows Latin1) (byte ∷ rest) ≡ Some (result, 1) }
{
    match byte {
        0x80..=0x9F => u32::from(CODES_80_TO_9F[usize::from(byte - 0x80)]),
        _ => u32::from(byte),
    }
}

/// The spelling of a code point in latin1.
#[inline(always)]
pub(crate) fn spelling(code: u32) -> Option<Spelling>
    ensures { option_map bytes_of result ≡ spelling_in (rows Latin1) code }
{
    match code {
        0x00..=0x7F | 0xA0..=0xFF => Some(Spelling::One([code as u8])),
        _ => spelling_80_to_9f(code),
    }
}

/// The spelling of a code point by a byte from 80 to 9F.
fn spelling_80_to_9f(code: u32) -> Option<Spelling>
    ensures { option_map bytes_of result ≡ spelling_in latin1_rows_80_to_9f code }
{
    match spelling_80_to_8f(code) {
        Some(spelling) => Some(spelling),
        None => spelling_90_to_9f(code),
    }
}

/// The spelling of a code point by a byte from 80 to 8F.
fn spelling_80_to_8f(code: u32) -> Option<Spelling>
    ensures { option_map bytes_of result ≡ spelling_in (take 16 latin1_rows_80_to_9f) code }
{
    match code {
        0x20AC => Some(Spelling::One([0x80])),
        0x0081 => Some(Spelling::One([0x81])),
        0x201A => Some(Spelling::One([0x82])),
        0x0192 => Some(Spelling::One([0x83])),
        0x201E => Some(Spelling::One([0x84])),
        0x2026 => Some(Spelling::One([0x85])),
        0x2020 => Some(Spelling::One([0x86])),
        0x2021 => Some(Spelling::One([0x87])),
        0x02C6 => Some(Spelling::One([0x88])),
        0x2030 => Some(Spelling::One([0x89])),
        0x0160 => Some(Spelling::One([0x8A])),
        0x2039 => Some(Spelling::One([0x8B])),
        0x0152 => Some(Spelling::One([0x8C])),
        0x008D => Some(Spelling::One([0x8D])),
        0x017D => Some(Spelling::One([0x8E])),
        0x008F => Some(Spelling::One([0x8F])),
        _ => None,
    }
}

/// The spelling of a code point by a byte from 90 to 9F.
fn spelling_90_to_9f(code: u32) -> Option<Spelling>
    ensures { option_map bytes_of result ≡ spelling_in (drop 16 latin1_rows_80_to_9f) code }
{
    match code {
        0x0090 => Some(Spelling::One([0x90])),
        0x2018 => Some(Spelling::One([0x91])),
        0x2019 => Some(Spelling::One([0x92])),
        0x201C => Some(Spelling::One([0x93])),
        0x201D => Some(Spelling::One([0x94])),
        0x2022 => Some(Spelling::One([0x95])),
        0x2013 => Some(Spelling::One([0x96])),
        0x2014 => Some(Spelling::One([0x97])),
        0x02DC => Some(Spelling::One([0x98])),
        0x2122 => Some(Spelling::One([0x99])),
        0x0161 => Some(Spelling::One([0x9A])),
        0x203A => Some(Spelling::One([0x9B])),
        0x0153 => Some(Spelling::One([0x9C])),
        0x009D => Some(Spelling::One([0x9D])),
        0x017E => Some(Spelling::One([0x9E])),
        0x0178 => Some(Spelling::One([0x9F])),
        _ => None,
    }
}
