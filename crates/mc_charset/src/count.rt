ghost use Rattle.mc_charset.specs.CharStart.{
  IsCharStart,
  HasWidth,
  is_not_high,
  unit_firsts,
};
ghost use Rattle.mc_charset.specs.Chars.{chars, IsWellFormed};
ghost use Rattle.std.specs.Prelude.{◌≡◌, ◌<◌, ◌≤◌, ◌^◌, IfSome, filter, length};

use crate::char_at::CharAt;
use crate::charset::Charset;
use crate::encoding::{Encoding, next_in};
use crate::encodings::{Ascii, Binary, Latin1, Ucs2, Utf16, Utf32};
use crate::firsts::{count_firsts, start_of_first};

/// How many characters a well-formed text of fewer than 2^32 bytes has.
pub fn char_count(set: Charset, text: &[u8]) -> u32
    requires well_formed { IsWellFormed set text.now }
    requires below_4_gib { length text.now < 2 ^ 32 }
    ensures { result ≡ length (chars set text.now) }
{
    match fixed_width(set) {
        Some(width) => (text.len() / width) as u32,
        None => count_varied(set, text),
    }
}

/// The byte place where character `k` begins, counted from 0, or the text's length where there are
/// no more than `k`.
pub fn char_start(set: Charset, text: &[u8], k: u32) -> usize
    requires well_formed { IsWellFormed set text.now }
    requires below_4_gib { length text.now < 2 ^ 32 }
    ensures { IsCharStart set text.now k result }
{
    match fixed_width(set) {
        Some(width) => (k as usize * width).min(text.len()),
        None => start_varied(set, text, k),
    }
}

/// How many bytes each character of the set has, where all have as many.
fn fixed_width(set: Charset) -> Option<usize>
    ensures { IfSome result (λ width. (0 < width) × (width ≤ 4) × HasWidth set width) }
{
    match set {
        Charset::Latin1 | Charset::Ascii | Charset::Binary => Some(1),
        Charset::Ucs2 => Some(2),
        Charset::Utf32 => Some(4),
        Charset::Utf8mb3 | Charset::Utf8mb4 | Charset::Utf16 => None,
    }
}

/// Counts in the way that suits the set.
fn count_varied(set: Charset, text: &[u8]) -> u32
    requires well_formed { IsWellFormed set text.now }
    requires below_4_gib { length text.now < 2 ^ 32 }
    ensures { result ≡ length (chars set text.now) }
{
    match set {
        Charset::Utf8mb3 | Charset::Utf8mb4 => count_firsts(text),
        Charset::Latin1 => count_each::<Latin1>(text),
        Charset::Ascii => count_each::<Ascii>(text),
        Charset::Ucs2 => count_each::<Ucs2>(text),
        Charset::Utf16 => count_units(text),
        Charset::Utf32 => count_each::<Utf32>(text),
        Charset::Binary => count_each::<Binary>(text),
    }
}

/// How many units of two bytes are no high surrogates: in utf16 each character has one of these.
fn count_units(text: &[u8]) -> u32
    requires { length text.now < 2 ^ 32 }
    ensures { result ≡ length (filter is_not_high (unit_firsts text.now)) }
{
    let mut count = 0;
    let mut rest = text;
    while let [first, _, behind @ ..] = rest {
        count += u32::from(is_not_high(*first));
        rest = behind;
    }
    count
}

/// Whether the byte is not one of D8 to DB.
#[inline(always)]
fn is_not_high(byte: u8) -> bool
    ensures { result ≡ is_not_high byte }
{
    byte < 0xD8 || byte > 0xDB
}

/// Counts one character after the other.
fn count_each<E: Encoding>(text: &[u8]) -> u32
    requires well_formed { IsWellFormed E.set text.now }
    requires below_4_gib { length text.now < 2 ^ 32 }
    ensures { result ≡ length (chars E.set text.now) }
{
    let mut count = 0;
    let mut rest = text;
    loop {
        match next_in::<E>(rest) {
            CharAt::Char { len, .. } => {
                count += 1;
                rest = &rest[len..];
            }
            CharAt::End | CharAt::Bad => return count,
        }
    }
}

/// Goes over `k` characters, or to the text's end.
fn start_varied(set: Charset, text: &[u8], k: u32) -> usize
    requires well_formed { IsWellFormed set text.now }
    requires below_4_gib { length text.now < 2 ^ 32 }
    ensures { IsCharStart set text.now k result }
{
    match set {
        Charset::Utf8mb3 | Charset::Utf8mb4 => start_of_first(text, k),
        Charset::Latin1 => start_behind::<Latin1>(text, k),
        Charset::Ascii => start_behind::<Ascii>(text, k),
        Charset::Ucs2 => start_behind::<Ucs2>(text, k),
        Charset::Utf16 => start_behind::<Utf16>(text, k),
        Charset::Utf32 => start_behind::<Utf32>(text, k),
        Charset::Binary => start_behind::<Binary>(text, k),
    }
}

/// Goes over `k` characters of one set, or to the text's end.
fn start_behind<E: Encoding>(text: &[u8], k: u32) -> usize
    requires { IsWellFormed E.set text.now }
    ensures { IsCharStart E.set text.now k result }
{
    let mut start = 0;
    for passed in 0..k {
        match next_in::<E>(&text[start..]) {
            CharAt::Char { len, .. } => start += len,
            CharAt::End | CharAt::Bad => return start,
        }
    }
    start
}
