ghost use Rattle.mc_charset.specs.Chars.{IsWellFormed};
ghost use Rattle.mc_convert.specs.Conversion.{IsReinterpreted, IsTaken, taken_for, unit_len};
ghost use Rattle.std.specs.Prelude.{◌≡◌, ◌<◌, ◌-◌, ◌%◌, ◌++◌, IfOk, IfSome};

use mc_base::{NoMemory, Text};
use mc_charset::{Charset, chars_law, is_well_formed};
use std::alloc::Global;

const ZEROS: [u8; 3] = [0, 0, 0];

/// The bytes as a text of a set, behind zero bytes up to a multiple of 2 for ucs2 and utf16
/// and of 4 for utf32.
/// `None` exactly where these are malformed. MySQL 8.0 manual, 12.10.
pub fn reinterpret(alloc: Global, to: Charset, bytes: &[u8]) -> Result<Option<Text>, NoMemory>
    ensures takes { IfOk result (λ answer. IsReinterpreted to bytes.now answer) }
    ensures is { IfOk result (λ answer. answer ≡ taken_for to bytes.now) }
    ensures well_formed { IfOk result (λ answer. IfSome answer (IsWellFormed to)) }
{
    chars_law();
    taken(alloc, to, bytes)
}

/// The padded bytes, if they are a text of the set.
fn taken(alloc: Global, to: Charset, bytes: &[u8]) -> Result<Option<Text>, NoMemory>
    ensures { IfOk result (λ answer. IsReinterpreted to bytes.now answer) }
{
    let zeros = missing(unit(to), bytes.len());
    if zeros == 0 {
        taken_whole(alloc, to, bytes)
    } else {
        taken_behind(alloc, to, &ZEROS[..zeros], bytes)
    }
}

/// The bytes, if they are a text of the set.
fn taken_whole(alloc: Global, to: Charset, bytes: &[u8]) -> Result<Option<Text>, NoMemory>
    ensures { IfOk result (λ answer. IsTaken to bytes.now answer) }
{
    if is_well_formed(to, bytes) {
        Ok(Some(Text::from_slice(alloc, bytes)?))
    } else {
        Ok(None)
    }
}

/// The bytes behind these zeros, if they are a text of the set.
fn taken_behind(
    alloc: Global,
    to: Charset,
    zeros: &[u8],
    bytes: &[u8],
) -> Result<Option<Text>, NoMemory>
    ensures { IfOk result (λ answer. IsTaken to (zeros.now ++ bytes.now) answer) }
{
    let mut text = Text::new(alloc);
    text.reserve(zeros.len().saturating_add(bytes.len()))?;
    text.extend_from_slice(zeros)?;
    text.extend_from_slice(bytes)?;
    if is_well_formed(to, text.as_slice()) {
        Ok(Some(text))
    } else {
        Ok(None)
    }
}

/// How many bytes a length lacks to be a multiple of the unit.
fn missing(unit: usize, len: usize) -> usize
    requires positive { 0 < unit }
    requires small { unit < 5 }
    ensures is { result ≡ (unit - len % unit) % unit }
    ensures below { result < unit }
{
    (unit - len % unit) % unit
}

/// How many bytes the shortest spellings of a set have.
pub(crate) fn unit(set: Charset) -> usize
    ensures is { result ≡ unit_len set }
    ensures positive { 0 < result }
    ensures small { result < 5 }
{
    match set {
        Charset::Ucs2 | Charset::Utf16 => 2,
        Charset::Utf32 => 4,
        Charset::Latin1 | Charset::Ascii | Charset::Utf8mb3 | Charset::Utf8mb4 | Charset::Binary =>
            1,
    }
}
