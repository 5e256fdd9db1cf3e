ghost use Rattle.mc_charset.specs.Chars.{spell};
ghost use Rattle.mc_convert.specs.Conversion.{fits, stand_in};
ghost use Rattle.mc_convert.specs.Plain.{IsPlain};
ghost use Rattle.mc_convert.specs.Steps.{AppendsEach, IsLostPlace, Takes, UnlessStopped};
ghost use Rattle.std.specs.Option.{option_map, option_or};
ghost use Rattle.std.specs.Prelude.{
  ◌≡◌,
  ◌++◌,
  ◌<◌,
  ◌≤◌,
  if◌then◌else◌,
  length,
  take,
  IfOk,
  IfSome,
  OnOk,
  OnErr,
};

use crate::conversion::is_binary;
use crate::plain_front::{FRONT_LEN, plain_front, put_plain};
use mc_base::{NoMemory, Text};
use mc_charset::{CharAt, Encoding, PutChar, chars_law, next_in, put_in};

const QUESTION_MARK: u32 = 0x3F;

/// What one step of a conversion took from the front of a text.
#[derive(Clone, Copy)]
pub(crate) enum Taken {
    /// So many characters in so many bytes, and whether the new set has them.
    Front { count: usize, len: usize, fit: bool },
    /// Nothing, since no character is left.
    Nothing,
}

/// Appends each character of the text in the other set, or `?` where that set lacks it. The place
/// of the first one that it lacks, in characters from 0. An exact conversion stops there. After an
/// error a part may be appended.
pub(crate) fn convert_each<F: Encoding, T: Encoding>(
    text: &[u8],
    exact: bool,
    out: &mut Text,
) -> Result<Option<usize>, NoMemory>
    ensures appends { IfOk result (λ lost. UnlessStopped exact lost
        (AppendsEach F.set T.set text.now out.old out.new)) }
    ensures lost { IfOk result (λ lost. IsLostPlace F.set T.set text.now lost) }
    ensures within { IfOk result (λ lost. IfSome lost (λ place. place < length text.now)) }
    ensures err { OnErr result (take (length out.old) out.new ≡ out.old) }
{
    chars_law();
    let mut place = 0;
    let mut lost = None;
    let mut rest = text;
    let mut try_plain = true;
    loop {
        match take_front::<F, T>(rest, try_plain, out) {
            Ok(Taken::Front { count, len, fit }) => {
                lost = first_lost(lost, place, fit);
                if exact && lost.is_some() {
                    return Ok(lost);
                }
                try_plain = count == FRONT_LEN || begins_above_7f(rest);
                place += count;
                rest = &rest[len..];
            }
            Ok(Taken::Nothing) => return Ok(lost),
            Err(NoMemory) => return Err(NoMemory),
        }
    }
}

/// Whether the text's first byte is above 7F. Eight bytes that were not all ASCII are tried again
/// only behind such a byte, since none can be ASCII before.
#[inline(always)]
fn begins_above_7f(text: &[u8]) -> bool {
    match text {
        [first, ..] => *first > 0x7F,
        [] => false,
    }
}

/// The place that was lost before, or else this one, if it isn't fit.
#[inline(always)]
fn first_lost(lost: Option<usize>, place: usize, fit: bool) -> Option<usize>
    ensures { result ≡ option_or lost (if fit then None else Some place) }
{
    if fit || lost.is_some() {
        lost
    } else {
        Some(place)
    }
}

/// Takes some bytes of ASCII at once, if these are to be tried, or else a single character.
#[inline(always)]
fn take_front<F: Encoding, T: Encoding>(
    text: &[u8],
    try_plain: bool,
    out: &mut Text,
) -> Result<Taken, NoMemory>
    ensures { Takes F.set T.set text.now out.old out.new result }
{
    if try_plain {
        if let Some(front) = plain_front::<F>(text) {
            return take_plain::<F, T>(text, front, out);
        }
    }
    take_char::<F, T>(text, out)
}

/// Appends the characters of these bytes, which stand at the front of the text.
#[inline(always)]
fn take_plain<F: Encoding, T: Encoding>(
    text: &[u8],
    front: &[u8; 8],
    out: &mut Text,
) -> Result<Taken, NoMemory>
    requires front { front.now ≡ take 8 text.now }
    requires within { 8 ≤ length text.now }
    requires plain { IsPlain F.set front.now }
    ensures { Takes F.set T.set text.now out.old out.new result }
{
    chars_law();
    match put_plain::<T>(front, out) {
        Ok(()) => Ok(Taken::Front {
            count: FRONT_LEN,
            len: FRONT_LEN,
            fit: true,
        }),
        Err(NoMemory) => Err(NoMemory),
    }
}

/// Appends the first character.
#[inline(always)]
fn take_char<F: Encoding, T: Encoding>(text: &[u8], out: &mut Text) -> Result<Taken, NoMemory>
    ensures { Takes F.set T.set text.now out.old out.new result }
{
    match next_in::<F>(text) {
        CharAt::Char { code, len } => match put_stand_in::<F, T>(code, out) {
            Ok(fit) => Ok(Taken::Front { count: 1, len, fit }),
            Err(NoMemory) => Err(NoMemory),
        },
        CharAt::End | CharAt::Bad => Ok(Taken::Nothing),
    }
}

/// Appends the character itself where the set has it, else `?`; whether the set has it.
#[inline(always)]
fn put_stand_in<F: Encoding, T: Encoding>(code: u32, out: &mut Text) -> Result<bool, NoMemory>
    ensures fit { IfOk result (λ fit. fit ≡ fits F.set T.set code) }
    ensures ok { OnOk result
        (option_map (λ front. out.old ++ front) (spell T.set (stand_in F.set T.set code))
        ≡ Some out.new) }
    ensures err { OnErr result (out.new ≡ out.old) }
{
    if is_binary(F::charset()) && code >= 0x80 {
        put_question_mark::<T>(out)?;
        return Ok(false);
    }
    match put_in::<T>(code, out) {
        Ok(()) => Ok(true),
        Err(PutChar::Unfit) => {
            put_question_mark::<T>(out)?;
            Ok(false)
        }
        Err(PutChar::NoMemory) => Err(NoMemory),
    }
}

/// Appends `?`, which each set has.
#[inline(always)]
fn put_question_mark<T: Encoding>(out: &mut Text) -> Result<(), NoMemory>
    ensures ok { OnOk result
        (option_map (λ front. out.old ++ front) (spell T.set 0x3F) ≡ Some out.new) }
    ensures err { OnErr result (out.new ≡ out.old) }
{
    match put_in::<T>(QUESTION_MARK, out) {
        Ok(()) => Ok(()),
        Err(_) => Err(NoMemory),
    }
}
