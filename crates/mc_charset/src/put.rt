ghost use Rattle.mc_charset.specs.Chars.{spell};
ghost use Rattle.mc_charset.specs.declared.put.PutChar.TheVariants.{NoMemory as OutOfMemory};
ghost use Rattle.std.specs.Option.{is_some, option_map};
ghost use Rattle.std.specs.Prelude.{
  ◌≡◌,
  ◌≢◌,
  ◌↔◌,
  ◌++◌,
  ◌∷◌,
  [],
  ℕ,
  MatchOption,
  OnOk,
  OnErr,
};

use crate::charset::Charset;
use crate::spelling::Spelling;
use mc_base::{NoMemory, Text};

/// Why a character was not appended.
#[derive(Clone, Copy, Debug, PartialEq, Eq)]
pub enum PutChar {
    /// The set lacks the code point.
    Unfit,
    /// Memory ran out.
    NoMemory,
}

impl From<NoMemory> for PutChar {
    ghost from_gives = { λ _ error. error ≡ OutOfMemory };

    fn from(_error: NoMemory) -> PutChar {
        PutChar::NoMemory
    }
}

/// Appends the one spelling of a code point. `Unfit` exactly where the set lacks the code point;
/// after an error the text is as it was.
pub fn put_char(set: Charset, code: u32, out: &mut Text) -> Result<(), PutChar>
    ensures ok { OnOk result (option_map (λ front. out.old ++ front) (spell set code)
        ≡ Some out.new) }
    ensures unfit { (result ≡ Err PutChar.Unfit) ↔ (spell set code ≡ None) }
    ensures err { OnErr result (out.new ≡ out.old) }
{
    let Some(spelling) = Spelling::of(set, code) else {
        return Err(PutChar::Unfit);
    };
    out.extend_from_slice(spelling.as_slice())?;
    Ok(())
}

/// Whether the set has the code point.
pub fn has_char(set: Charset, code: u32) -> bool
    ensures { result ≡ is_some (spell set code) }
{
    Spelling::of(set, code).is_some()
}

/// The one byte that spells a code point in the set, where one byte does.
pub fn byte_of(set: Charset, code: u32) -> Option<u8>
    ensures { MatchOption result ((byte : ℕ) → spell set code ≢ Some (byte ∷ []))
        (λ byte. spell set code ≡ Some (byte ∷ [])) }
{
    match Spelling::of(set, code) {
        Some(Spelling::One(bytes)) => Some(bytes[0]),
        _ => None,
    }
}
