ghost use Rattle.mc_charset.specs.Chars.{Spells, spell};
ghost use Rattle.mc_order.specs.Meaning.{AreCharsOf, IsCharOf, first_chars};
ghost use Rattle.mc_range.specs.Safe.{is_safe};
ghost use Rattle.std.specs.List.{prefix_len, take_while};
ghost use Rattle.std.specs.Prelude.{◌≡◌, ◌≤◌, ◌++◌, Some, IfOk, length, option_map};

use mc_base::{NoMemory, Text};
use mc_charset::{Charset, PutChar, chars_law, put_char};
use mc_order::{Collation, characters_laws, collation_laws};
use std::alloc::Global;

/// Whether no contraction begins with a character that has the weights of this one.
fn is_safe<C: Collation>(collation: &C, code: u32) -> bool
    requires { IsCharOf (C.meaning collation.now).charset code }
    ensures { result ≡ is_safe (C.meaning collation.now) code }
{
    collation_laws(collation);
    collation.safe(code)
}

/// How many characters in front are safe.
fn safe_len<C: Collation>(collation: &C, codes: &[u32]) -> usize
    requires { AreCharsOf (C.meaning collation.now).charset codes.now }
    ensures within { result ≤ length codes.now }
    ensures longest { result ≡ prefix_len (is_safe (C.meaning collation.now)) codes.now }
{
    let mut len = 0;
    while len < codes.len() {
        if !is_safe(collation, codes[len]) {
            return len;
        }
        len += 1;
    }
    len
}

/// The first characters, as many as an index keeps.
fn kept(codes: &[u32], prefix: Option<u32>) -> &[u32]
    ensures { result.now ≡ first_chars prefix codes.now }
{
    match prefix {
        Some(k) => &codes[..codes.len().min(k as usize)],
        None => codes,
    }
}

/// The longest front of the characters that is safe throughout and that an index keeps.
pub(crate) fn safe_front<'a, C: Collation>(
    collation: &C,
    codes: &'a [u32],
    prefix: Option<u32>,
) -> &'a [u32]
    requires { AreCharsOf (C.meaning collation.now).charset codes.now }
    ensures front { result.now
        ≡ take_while (is_safe (C.meaning collation.now)) (first_chars prefix codes.now) }
    ensures of_set { AreCharsOf (C.meaning collation.now).charset result.now }
{
    characters_laws();
    let front = kept(codes, prefix);
    let len = safe_len(collation, front);
    &front[..len]
}

/// The text of these characters.
pub(crate) fn spelled(alloc: Global, set: Charset, codes: &[u32]) -> Result<Text, NoMemory>
    requires { AreCharsOf set codes.now }
    ensures { IfOk result (λ text. Spells set codes.now text) }
{
    chars_law();
    let mut text = Text::new(alloc);
    for code in codes {
        put_one(set, *code, &mut text)?;
    }
    Ok(text)
}

/// Appends the spelling of a character of the set.
fn put_one(set: Charset, code: u32, text: &mut Text) -> Result<(), NoMemory>
    ensures { IfOk result
        (λ _. option_map (λ spelling. text.old ++ spelling) (spell set code) ≡ Some text.new) }
{
    match put_char(set, code, text) {
        Ok(()) => Ok(()),
        // The set has the character, so it is memory that was wanting.
        Err(PutChar::Unfit | PutChar::NoMemory) => Err(NoMemory),
    }
}
