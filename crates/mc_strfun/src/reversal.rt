ghost use Rattle.mc_charset.specs.Chars.{Spells, chars, IsWellFormed};
ghost use Rattle.std.specs.Prelude.{
  ◌≡◌,
  ◌+◌,
  ◌≤◌,
  ◌++◌,
  IfOk,
  drop,
  length,
  reverse,
  take,
};

use mc_base::{NoMemory, Text};
use mc_charset::{CharAt, Charset, chars_law, next_char};
use std::alloc::Global;

/// The characters backwards.
pub fn reverse(alloc: Global, set: Charset, text: &Text) -> Result<Text, NoMemory>
    requires { IsWellFormed set text.now }
    ensures { IfOk result (Spells set (reverse (chars set text.now))) }
{
    backwards(alloc, set, text.as_slice())
}

/// The characters of a slice backwards.
fn backwards(alloc: Global, set: Charset, text: &[u8]) -> Result<Text, NoMemory>
    requires { IsWellFormed set text.now }
    ensures { IfOk result (Spells set (reverse (chars set text.now))) }
{
    let mut bytes = Vec::from_slice(alloc, text)?;
    put_backwards(set, text, bytes.as_mut_slice());
    Ok(Text::from_slice(alloc, bytes.as_slice())?)
}

/// Writes the characters backwards over as many bytes as the text has.
fn put_backwards(set: Charset, text: &[u8], out: &mut [u8])
    requires well_formed { IsWellFormed set text.now }
    requires as_long { length out.now ≡ length text.now }
    ensures { Spells set (reverse (chars set text.now)) out.new }
{
    chars_law();
    let mut at = 0;
    while let CharAt::Char { len, .. } = next_char(set, &text[at..]) {
        put_at(out, text.len() - at - len, &text[at..at + len]);
        at += len;
    }
}

/// Writes bytes over those from a place on.
fn put_at(out: &mut [u8], start: usize, bytes: &[u8])
    requires { start + length bytes.now ≤ length out.now }
    ensures { out.new ≡
        take start out.old ++ (bytes.now ++ drop (start + length bytes.now) out.old) }
{
    out[start..start + bytes.len()].copy_from_slice(bytes);
}
