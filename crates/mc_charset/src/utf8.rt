ghost use Rattle.mc_charset.specs.PutChar.{bytes_of};
ghost use Rattle.std.specs.Option.{option_map};
ghost use Rattle.mc_charset.specs.Rows.{spelling_in};
ghost use Rattle.mc_charset.specs.NextChar.{IsFound};
ghost use Rattle.mc_charset.specs.Tables.{utf8_short_rows, utf8_long_rows};
ghost use Rattle.std.specs.Prelude.{◌≡◌, ◌≤◌, ◌+◌, ◌-◌, ◌*◌, ◌++◌, ◌%◌, drop};

use crate::char_at::CharAt;
use crate::spelling::Spelling;

/// The first character by all nine rows of the Unicode Standard's Table 3-7.
#[inline(always)]
pub(crate) fn next(text: &[u8]) -> CharAt
    ensures { IsFound (utf8_short_rows ++ utf8_long_rows) text.now result }
{
    match *text {
        [0xF0..=0xFF, ..] => next_long(text),
        _ => next_short(text),
    }
}

/// The first character by the first six rows: up to three bytes.
#[inline(always)]
pub(crate) fn next_short(text: &[u8]) -> CharAt
    ensures { IsFound utf8_short_rows text.now result }
{
    match *text {
        [] => CharAt::End,
        [a @ 0x00..=0x7F, ..] => CharAt::Char {
            code: u32::from(a),
            len: 1,
        },
        [a @ 0xC2..=0xDF, b @ 0x80..=0xBF, ..] => two(a, b),
        _ => next_three(text),
    }
}

/// The first character by the rows of three bytes.
#[inline(always)]
fn next_three(text: &[u8]) -> CharAt
    ensures { IsFound (drop 2 utf8_short_rows) text.now result }
{
    match *text {
        [] => CharAt::End,
        [a @ 0xE0, b @ 0xA0..=0xBF, c @ 0x80..=0xBF, ..] => three(a, b, c),
        [a @ 0xE1..=0xEC, b @ 0x80..=0xBF, c @ 0x80..=0xBF, ..] => three(a, b, c),
        [a @ 0xED, b @ 0x80..=0x9F, c @ 0x80..=0xBF, ..] => three(a, b, c),
        [a @ 0xEE..=0xEF, b @ 0x80..=0xBF, c @ 0x80..=0xBF, ..] => three(a, b, c),
        _ => CharAt::Bad,
    }
}

/// The first character by the last three rows: four bytes.
#[inline(always)]
fn next_long(text: &[u8]) -> CharAt
    ensures { IsFound utf8_long_rows text.now result }
{
    match *text {
        [] => CharAt::End,
        [
            a @ 0xF0,
            b @ 0x90..=0xBF,
            c @ 0x80..=0xBF,
            d @ 0x80..=0xBF,
            ..
        ] => four(a, b, c, d),
        _ => next_longer(text),
    }
}

/// The first character by the last two rows: from 40000 on.
#[inline(always)]
fn next_longer(text: &[u8]) -> CharAt
    ensures { IsFound (drop 1 utf8_long_rows) text.now result }
{
    match *text {
        [] => CharAt::End,
        [
            a @ 0xF1..=0xF3,
            b @ 0x80..=0xBF,
            c @ 0x80..=0xBF,
            d @ 0x80..=0xBF,
            ..
        ] => four(a, b, c, d),
        [
            a @ 0xF4,
            b @ 0x80..=0x8F,
            c @ 0x80..=0xBF,
            d @ 0x80..=0xBF,
            ..
        ] => four(a, b, c, d),
        _ => CharAt::Bad,
    }
}

#[inline(always)]
fn two(a: u8, b: u8) -> CharAt
    requires first { 0xC0 ≤ a }
    requires second { 0x80 ≤ b }
    ensures { result ≡ CharAt.Char ((a - 0xC0) * 64 + (b - 0x80)) 2 }
{
    CharAt::Char {
        code: u32::from(a - 0xC0) * 64 + u32::from(b - 0x80),
        len: 2,
    }
}

#[inline(always)]
fn three(a: u8, b: u8, c: u8) -> CharAt
    requires first { 0xE0 ≤ a }
    requires second { 0x80 ≤ b }
    requires third { 0x80 ≤ c }
    ensures { result ≡ CharAt.Char ((a - 0xE0) * 4096 + (b - 0x80) * 64 + (c - 0x80)) 3 }
{
    CharAt::Char {
        code: u32::from(a - 0xE0) * 4096 + u32::from(b - 0x80) * 64 + u32::from(c - 0x80),
        len: 3,
    }
}

#[inline(always)]
fn four(a: u8, b: u8, c: u8, d: u8) -> CharAt
    requires first { 0xF0 ≤ a }
    requires second { 0x80 ≤ b }
    requires third { 0x80 ≤ c }
    requires fourth { 0x80 ≤ d }
    ensures { result ≡ CharAt.Char ((a - 0xF0) * 262144 + (b - 0x80) * 4096 + (c - 0x80) * 64 +
        (d - 0x80)) 4 }
{
    CharAt::Char {
        code: u32::from(a - 0xF0) * 262144
            + u32::from(b - 0x80) * 4096
            + u32::from(c - 0x80) * 64
            + u32::from(d - 0x80),
        len: 4,
    }
}

/// The spelling of a code point by all nine rows.
#[inline(always)]
pub(crate) fn spelling(code: u32) -> Option<Spelling>
    ensures { option_map bytes_of result ≡ spelling_in (utf8_short_rows ++ utf8_long_rows) code }
{
    match code {
        0x10000..=0x10FFFF => Some(Spelling::Four([
            0xF0 + (code / 0x40000) as u8,
            trail(code / 0x1000),
            trail(code / 0x40),
            trail(code),
        ])),
        _ => spelling_short(code),
    }
}

/// The spelling of a code point by the first six rows.
#[inline(always)]
pub(crate) fn spelling_short(code: u32) -> Option<Spelling>
    ensures { option_map bytes_of result ≡ spelling_in utf8_short_rows code }
{
    match code {
        0x0000..=0x007F => Some(Spelling::One([code as u8])),
        0x0080..=0x07FF => Some(Spelling::Two([0xC0 + (code / 0x40) as u8, trail(code)])),
        0x0800..=0xD7FF | 0xE000..=0xFFFF => Some(Spelling::Three([
            0xE0 + (code / 0x1000) as u8,
            trail(code / 0x40),
            trail(code),
        ])),
        _ => None,
    }
}

/// A byte behind the first: the last six bits.
#[inline(always)]
fn trail(bits: u32) -> u8
    ensures { result ≡ 0x80 + bits % 0x40 }
{
    0x80 + (bits % 0x40) as u8
}
