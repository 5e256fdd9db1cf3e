ghost use Rattle.mc_charset.specs.Chars.{Spells, chars, IsWellFormed};
ghost use Rattle.mc_strfun.specs.Joins.{spelled_within};
ghost use Rattle.mc_strfun.specs.Replaced.{replaced, replaced_behind};
ghost use Rattle.mc_values.specs.Values.{greatest_string};
ghost use Rattle.std.specs.Prelude.{
  ◌≡◌,
  ◌≢◌,
  ◌↔◌,
  ◌++◌,
  ◌+◌,
  ◌<◌,
  ◌≤◌,
  IfOk,
  IsFalse,
  IsTrue,
  List,
  ℕ,
  drop,
  length,
  take,
};

use crate::part::whole;
use mc_base::{NoMemory, Text};
use mc_charset::{
    Ascii, Binary, CharAt, Charset, Encoding, Latin1, Ucs2, Utf8mb3, Utf8mb4, Utf16, Utf32,
    chars_law, next_in,
};
use mc_values::GREATEST_STRING;
use std::alloc::Global;

/// The text with each copy of `from` replaced by `to`, from the left and without overlap; the text
/// itself where `from` is empty. None exactly where that is longer than the greatest length of a
/// string. Each character is compared with the beginning of `from`, so the time may grow with the
/// product of both lengths.
pub fn replace(
    alloc: Global,
    set: Charset,
    text: &Text,
    from: &Text,
    to: &Text,
) -> Result<Option<Text>, NoMemory>
    requires text { IsWellFormed set text.now }
    requires from { IsWellFormed set from.now }
    requires to { IsWellFormed set to.now }
    ensures { IfOk result (λ value. value ≡ spelled_within set
        (replaced (chars set from.now) (chars set to.now) (chars set text.now))) }
{
    chars_law();
    if from.is_empty() {
        return whole(alloc, text.as_slice());
    }
    replace_each(alloc, set, text.as_slice(), from.as_slice(), to.as_slice())
}

/// The text with each copy replaced, within the greatest length. What stands between two copies is
/// appended at once.
fn replace_each(
    alloc: Global,
    set: Charset,
    text: &[u8],
    from: &[u8],
    to: &[u8],
) -> Result<Option<Text>, NoMemory>
    requires text { IsWellFormed set text.now }
    requires from { IsWellFormed set from.now }
    requires to { IsWellFormed set to.now }
    requires filled { 0 < length from.now }
    ensures { IfOk result (λ value. value ≡ spelled_within set
        (replaced (chars set from.now) (chars set to.now) (chars set text.now))) }
{
    chars_law();
    let mut out = Text::new(alloc);
    out.reserve(text.len())?;
    let mut at = 0;
    loop {
        let run = run_len(set, &text[at..], from);
        if !push_within(&mut out, &text[at..at + run])? {
            return Ok(None);
        }
        if at + run == text.len() {
            return Ok(Some(out));
        }
        if !push_within(&mut out, to)? {
            return Ok(None);
        }
        at += run + from.len();
    }
}

/// How many bytes stand before the first copy, or all where there is none.
fn run_len(set: Charset, text: &[u8], from: &[u8]) -> usize
    requires text { IsWellFormed set text.now }
    requires from { IsWellFormed set from.now }
    ensures within { result ≤ length text.now }
    ensures well_formed { IsWellFormed set (drop result text.now) }
    ensures kept { (to tail : List ℕ)
        → Spells set (replaced_behind 0 (chars set from.now) to (chars set (drop result text.now))) tail
        → Spells set (replaced_behind 0 (chars set from.now) to (chars set text.now))
        (take result text.now ++ tail) }
    ensures copy { result ≢ length text.now
        → take (length from.now) (drop result text.now) ≡ from.now }
{
    match set {
        Charset::Latin1 => run_in::<Latin1>(text, from),
        Charset::Ascii => run_in::<Ascii>(text, from),
        Charset::Utf8mb3 => run_in::<Utf8mb3>(text, from),
        Charset::Utf8mb4 => run_in::<Utf8mb4>(text, from),
        Charset::Ucs2 => run_in::<Ucs2>(text, from),
        Charset::Utf16 => run_in::<Utf16>(text, from),
        Charset::Utf32 => run_in::<Utf32>(text, from),
        Charset::Binary => run_in::<Binary>(text, from),
    }
}

/// The same in one set.
fn run_in<E: Encoding>(text: &[u8], from: &[u8]) -> usize
    requires text { IsWellFormed E.set text.now }
    requires from { IsWellFormed E.set from.now }
    ensures within { result ≤ length text.now }
    ensures well_formed { IsWellFormed E.set (drop result text.now) }
    ensures kept { (to tail : List ℕ)
        → Spells E.set (replaced_behind 0 (chars E.set from.now) to
        (chars E.set (drop result text.now))) tail
        → Spells E.set (replaced_behind 0 (chars E.set from.now) to (chars E.set text.now))
        (take result text.now ++ tail) }
    ensures copy { result ≢ length text.now
        → take (length from.now) (drop result text.now) ≡ from.now }
{
    chars_law();
    let mut at = 0;
    while let CharAt::Char { len, .. } = next_in::<E>(&text[at..]) {
        if begins(&text[at..], from) {
            return at;
        }
        at += len;
    }
    at
}

/// Whether the text begins with these bytes.
pub(crate) fn begins(text: &[u8], front: &[u8]) -> bool
    ensures { IsTrue result ↔ (take (length front.now) text.now ≡ front.now) }
{
    text.starts_with(front)
}

/// Appends bytes, if a string may be as long as that, and says so.
fn push_within(out: &mut Text, more: &[u8]) -> Result<bool, NoMemory>
    requires { length out.now ≤ greatest_string }
    ensures pushed { IfOk result (λ fits. IsTrue fits
        → (out.new ≡ out.old ++ more.now) × (length out.new ≤ greatest_string)) }
    ensures long { IfOk result (λ fits. IsFalse fits
        → greatest_string < length out.old + length more.now) }
{
    if more.len() > GREATEST_STRING - out.len() {
        return Ok(false);
    }
    out.extend_from_slice(more)?;
    Ok(true)
}
