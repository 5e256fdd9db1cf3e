ghost use Rattle.mc_charset.specs.Chars.{spell};
ghost use Rattle.mc_charset.specs.NextChar.{IsFound, IsNextChar, HeadsChars};
ghost use Rattle.mc_charset.specs.PutChar.{bytes_of};
ghost use Rattle.mc_charset.specs.Rows.{spelling_in};
ghost use Rattle.mc_charset.specs.Tables.{rows};
ghost use Rattle.std.specs.Option.{is_some, option_map};
ghost use Rattle.std.specs.Prelude.{◌≡◌, ◌↔◌, ◌++◌, OnOk, OnErr};

use crate::char_at::CharAt;
use crate::charset::Charset;
use crate::put::PutChar;
use crate::spelling::Spelling;
use mc_base::Text;

/// A character set as a type: a loop over it asks once for the set, and not at each character.
pub trait Encoding {
    ghost use Rattle.mc_charset.specs.declared.charset.Charset.{Charset as Sets};

    ghost set: { Sets };

    /// The set.
    fn charset() -> Charset
        ensures { result ≡ set };

    /// What the rows of the set have at the front of the text.
    fn found(text: &[u8]) -> CharAt
        ensures { IsFound (rows set) text.now result };

    /// The spelling of a code point in the set, where the set has it.
    fn spelling(code: u32) -> Option<Spelling>
        ensures { option_map bytes_of result ≡ spelling_in (rows set) code };
}

/// The character whose spelling begins the text, as `next_char` gives it.
#[inline(always)]
pub fn next_in<E: Encoding>(text: &[u8]) -> CharAt
    ensures first { IsNextChar E.set text.now result }
    ensures heads { HeadsChars E.set text.now result }
{
    E::found(text)
}

/// Appends the one spelling of a code point, as `put_char` does.
#[inline(always)]
#[tactic(auto, unfolding(crate::specs::Chars::spell))]
pub fn put_in<E: Encoding>(code: u32, out: &mut Text) -> Result<(), PutChar>
    ensures ok { OnOk result
        (option_map (λ front. out.old ++ front) (spell E.set code) ≡ Some out.new) }
    ensures unfit { (result ≡ Err PutChar.Unfit) ↔ (spell E.set code ≡ None) }
    ensures err { OnErr result (out.new ≡ out.old) }
{
    let Some(spelling) = E::spelling(code) else {
        return Err(PutChar::Unfit);
    };
    spelling.put(out)?;
    Ok(())
}

/// Whether the set has the code point.
#[inline(always)]
#[tactic(auto, unfolding(crate::specs::Chars::spell))]
pub fn has_in<E: Encoding>(code: u32) -> bool
    ensures { result ≡ is_some (spell E.set code) }
{
    E::spelling(code).is_some()
}
