ghost use Rattle.mc_charset.specs.Chars.{IsWellFormed};
ghost use Rattle.mc_convert.specs.Conversion.{
  IsConverted,
  IsFirstLost,
  IsLossless,
  converted_text,
  is_binary,
};
ghost use Rattle.mc_convert.specs.Steps.{AppendsEach, IsLostPlace, UnlessStopped};
ghost use Rattle.std.specs.Prelude.{
  ◌≡◌,
  ◌++◌,
  ◌<◌,
  IfOk,
  IfSome,
  OnOk,
  OnErr,
  MatchOption,
  length,
  take,
};

use crate::kept::keeps_text;
use crate::padding::unit;
use crate::steps::convert_each;
use mc_base::{NoMemory, Text};
use mc_charset::{
    Ascii, Binary, Charset, Encoding, Latin1, Ucs2, Utf8mb3, Utf8mb4, Utf16, Utf32, bytes_law,
    char_count,
};
use std::alloc::Global;

/// A well-formed text in another set: each character there, or `?` where that set lacks it.
/// To binary the bytes stay; from binary a byte below 80 is that character and any other one
/// becomes `?`.
pub fn convert(alloc: Global, from: Charset, to: Charset, text: &[u8]) -> Result<Text, NoMemory>
    requires { IsWellFormed from text.now }
    ensures converts { IfOk result (λ converted. IsConverted from to text.now converted) }
    ensures is { IfOk result (λ converted. converted ≡ converted_text from to text.now) }
    ensures well_formed { IfOk result (λ converted. IsWellFormed to converted) }
{
    bytes_law(text);
    let mut converted = Text::new(alloc);
    match convert_into(from, to, text, &mut converted) {
        Ok(()) => Ok(converted),
        Err(NoMemory) => Err(NoMemory),
    }
}

/// Appends a well-formed text in another set, as `convert` gives it. After an error `out` is as it
/// was.
pub fn convert_into(from: Charset, to: Charset, text: &[u8], out: &mut Text) -> Result<(), NoMemory>
    requires { IsWellFormed from text.now }
    ensures ok { OnOk result (out.new ≡ out.old ++ converted_text from to text.now) }
    ensures err { OnErr result (out.new ≡ out.old) }
{
    let len = out.len();
    match append(from, to, text, false, out) {
        Ok(_) => Ok(()),
        Err(NoMemory) => {
            out.truncate(len);
            Err(NoMemory)
        }
    }
}

/// Appends the text in the other set, in one turn, and gives the place of the first character that
/// the set lacks, in characters from 0. An exact conversion stops there. After an error a part may
/// be appended.
pub(crate) fn append(
    from: Charset,
    to: Charset,
    text: &[u8],
    exact: bool,
    out: &mut Text,
) -> Result<Option<usize>, NoMemory>
    requires { IsWellFormed from text.now }
    ensures is { IfOk result (λ lost. UnlessStopped exact lost
        (out.new ≡ out.old ++ converted_text from to text.now)) }
    ensures lost { IfOk result (λ lost. MatchOption lost (IsLossless from to text.now)
        (λ place. IsFirstLost from to text.now place)) }
    ensures within { IfOk result (λ lost. IfSome lost (λ place. place < length text.now)) }
    ensures err { OnErr result (take (length out.old) out.new ≡ out.old) }
{
    if keeps_text(from, to, text) {
        out.extend_from_slice(text)?;
        return Ok(None);
    }
    append_each(from, to, text, exact, out)
}

/// Appends each character of the text in another set than binary, for which room is made once.
fn append_each(
    from: Charset,
    to: Charset,
    text: &[u8],
    exact: bool,
    out: &mut Text,
) -> Result<Option<usize>, NoMemory>
    requires { IsWellFormed from text.now }
    ensures appends { IfOk result (λ lost. UnlessStopped exact lost
        (AppendsEach from to text.now out.old out.new)) }
    ensures lost { IfOk result (λ lost. IsLostPlace from to text.now lost) }
    ensures within { IfOk result (λ lost. IfSome lost (λ place. place < length text.now)) }
    ensures err { OnErr result (take (length out.old) out.new ≡ out.old) }
{
    out.reserve(room(from, to, text))?;
    match from {
        Charset::Latin1 => append_from::<Latin1>(to, text, exact, out),
        Charset::Ascii => append_from::<Ascii>(to, text, exact, out),
        Charset::Utf8mb3 => append_from::<Utf8mb3>(to, text, exact, out),
        Charset::Utf8mb4 => append_from::<Utf8mb4>(to, text, exact, out),
        Charset::Ucs2 => append_from::<Ucs2>(to, text, exact, out),
        Charset::Utf16 => append_from::<Utf16>(to, text, exact, out),
        Charset::Utf32 => append_from::<Utf32>(to, text, exact, out),
        Charset::Binary => append_from::<Binary>(to, text, exact, out),
    }
}

/// Appends each character of a text in one set, in any other one.
fn append_from<F: Encoding>(
    to: Charset,
    text: &[u8],
    exact: bool,
    out: &mut Text,
) -> Result<Option<usize>, NoMemory>
    ensures appends { IfOk result (λ lost. UnlessStopped exact lost
        (AppendsEach F.set to text.now out.old out.new)) }
    ensures lost { IfOk result (λ lost. IsLostPlace F.set to text.now lost) }
    ensures within { IfOk result (λ lost. IfSome lost (λ place. place < length text.now)) }
    ensures err { OnErr result (take (length out.old) out.new ≡ out.old) }
{
    match to {
        Charset::Latin1 => convert_each::<F, Latin1>(text, exact, out),
        Charset::Ascii => convert_each::<F, Ascii>(text, exact, out),
        Charset::Utf8mb3 => convert_each::<F, Utf8mb3>(text, exact, out),
        Charset::Utf8mb4 => convert_each::<F, Utf8mb4>(text, exact, out),
        Charset::Ucs2 => convert_each::<F, Ucs2>(text, exact, out),
        Charset::Utf16 => convert_each::<F, Utf16>(text, exact, out),
        Charset::Utf32 => convert_each::<F, Utf32>(text, exact, out),
        Charset::Binary => convert_each::<F, Binary>(text, exact, out),
    }
}

/// Room for a converted text: in a set of one byte each as much as its characters may take, without
/// a count; in another set of one width what they take; in utf16 as much as they may take; in UTF-8
/// as much as they take now, which may be too little.
fn room(from: Charset, to: Charset, text: &[u8]) -> usize
    requires { IsWellFormed from text.now }
{
    match to {
        Charset::Latin1 | Charset::Ascii | Charset::Binary => text.len() / unit(from),
        Charset::Utf8mb3 | Charset::Utf8mb4 => text.len(),
        Charset::Ucs2 => count_at_most(from, text).saturating_mul(2),
        Charset::Utf16 => units_at_most(count_at_most(from, text), text.len()).saturating_mul(2),
        Charset::Utf32 => count_at_most(from, text).saturating_mul(4),
    }
}

/// How many characters the text has; of a text of 4 GiB or more, how many it may have.
fn count_at_most(set: Charset, text: &[u8]) -> usize
    requires { IsWellFormed set text.now }
{
    if text.len() < 0x1_0000_0000 {
        char_count(set, text) as usize
    } else {
        text.len() / unit(set)
    }
}

/// How many units so many characters may have in utf16, where those above U+FFFF have four bytes
/// each and the others at least one.
fn units_at_most(count: usize, len: usize) -> usize {
    count.saturating_add(count.min(len.saturating_sub(count) / 3))
}

/// Whether the set is binary.
pub(crate) fn is_binary(set: Charset) -> bool
    ensures { result ≡ is_binary set }
{
    matches!(set, Charset::Binary)
}
