ghost use Rattle.mc_charset.specs.Chars.{IsWellFormed, Spells, chars, spell};
ghost use Rattle.mc_key.specs.WeightString.{space_code};
ghost use Rattle.std.specs.List.{repeat};
ghost use Rattle.std.specs.Prelude.{◌≡◌, ◌-◌, ◌≤◌, ◌++◌, ◌∷◌, []};
ghost use Rattle.std.specs.Prelude.{Some, IfOk, length};

use mc_base::{NoMemory, Text};
use mc_charset::{CharAt, Charset, chars_law, next_char};
use std::alloc::Global;

/// How many characters a text has too few for `count` of them.
pub(crate) fn missing_chars(set: Charset, text: &[u8], count: u32) -> u32
    ensures { result ≡ count - length (chars set text.now) }
{
    let mut missing = count;
    let mut rest = text;
    while missing > 0 {
        match next_char(set, rest) {
            CharAt::Char { len, .. } => rest = &rest[len..],
            CharAt::End | CharAt::Bad => return missing,
        }
        missing -= 1;
    }
    0
}

/// The spelling of U+0020 in a set.
#[tactic(auto, using(crate::proofs::Copies::space_spelled))]
fn space_in(set: Charset) -> &'static [u8]
    ensures spelled { spell set space_code ≡ Some result.now }
    ensures short { length result.now ≤ 4 }
{
    match set {
        Charset::Latin1 | Charset::Ascii | Charset::Utf8mb3 | Charset::Utf8mb4 | Charset::Binary =>
            b" ",
        Charset::Ucs2 | Charset::Utf16 => b"\0 ",
        Charset::Utf32 => b"\0\0\0 ",
    }
}

/// A text with so many spaces behind it.
pub(crate) fn with_spaces(
    alloc: Global,
    set: Charset,
    text: &[u8],
    count: u32,
) -> Result<Text, NoMemory>
    requires { IsWellFormed set text.now }
    ensures { IfOk result
        (λ longer. Spells set (chars set text.now ++ repeat count (space_code ∷ [])) longer) }
{
    chars_law();
    let mut longer = Text::from_slice(alloc, text)?;
    push_copies(&mut longer, space_in(set), count)?;
    Ok(longer)
}

/// Appends so many copies.
pub(crate) fn push_copies(out: &mut Text, bytes: &[u8], count: u32) -> Result<(), NoMemory>
    ensures { IfOk result (λ _. out.new ≡ out.old ++ repeat count bytes.now) }
{
    for _copy in 0..count {
        out.extend_from_slice(bytes)?;
    }
    Ok(())
}
