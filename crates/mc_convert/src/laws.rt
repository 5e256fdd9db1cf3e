ghost use Rattle.mc_charset.specs.Chars.{spell, chars, IsWellFormed};
ghost use Rattle.mc_charset.specs.declared.charset.Charset.{Charset};
ghost use Rattle.mc_convert.specs.Classes.{HasIn, IsRepertoire, cap_of, rank};
ghost use Rattle.mc_charset.specs.declared.charset.Charset.TheVariants.{Binary};
ghost use Rattle.mc_convert.specs.Conversion.{
  IsConverted,
  IsFirstLost,
  IsLossless,
  converted_text,
  is_binary,
  stand_in,
};
ghost use Rattle.mc_convert.specs.Repertoires.{repertoire};
ghost use Rattle.mc_convert.specs.declared.repertoire.Repertoire.{Repertoire};
ghost use Rattle.std.specs.Prelude.{◌≡◌, ◌≤◌, ◌↔◌, ℕ, List, IsSome, false, map};

use mc_charset::chars_law;

/// The laws of repertoires: the classes form a chain, in which each class has what the earlier
/// ones have; the cap of a set is the least class that has all of its characters; the least class
/// of a text is the one of the function. MySQL 8.0 manual, 10.2.1.
pub fn repertoire_law()
    ensures chain { (set : Charset) (class other : Repertoire) (code : ℕ)
        → rank class ≤ rank other → HasIn set class code → HasIn set other code }
    ensures cap_has_all { (set : Charset) (code : ℕ)
        → IsSome (spell set code) → HasIn set (cap_of set) code }
    ensures cap_is_least { (set : Charset) (other : Repertoire)
        → ((code : ℕ) → IsSome (spell set code) → HasIn set other code)
        → rank (cap_of set) ≤ rank other }
    ensures is { (set : Charset) (text : List ℕ) (class : Repertoire)
        → IsRepertoire set text class → class ≡ repertoire set text }
{}

/// The laws of conversion: a text is converted exactly where it is `converted_text`; the characters
/// of a converted text are those of the text, each that the set lacks being `?`, and to binary the
/// bytes stay; a text whose repertoire is at most the cap of a set loses no character to it; a text
/// that loses none has no first lost character, and once converted it has the same characters. So
/// `convert_exact` refuses no text within the cap. MySQL 8.0 manual, 10.2.1 and 10.10.
pub fn conversion_law()
    ensures within_cap { (from to : Charset) (text : List ℕ) (class : Repertoire)
        → IsWellFormed from text → IsRepertoire from text class → rank class ≤ rank (cap_of to)
        → IsLossless from to text }
    ensures none_lost { (from to : Charset) (text : List ℕ) (place : ℕ)
        → IsLossless from to text → IsFirstLost from to text place → ⊥ }
    ensures same_chars { (from to : Charset) (text converted : List ℕ)
        → is_binary to ≡ false → IsLossless from to text → IsConverted from to text converted
        → chars to converted ≡ chars from text }
    ensures same_text { (from to : Charset) (text : List ℕ)
        → is_binary to ≡ false → IsLossless from to text
        → chars to (converted_text from to text) ≡ chars from text }
    ensures is { (from to : Charset) (text converted : List ℕ)
        → IsConverted from to text converted ↔ (converted ≡ converted_text from to text) }
    ensures stand_ins { (from to : Charset) (text : List ℕ) → is_binary to ≡ false
        → chars to (converted_text from to text) ≡ map (stand_in from to) (chars from text) }
    ensures to_binary { (from : Charset) (text : List ℕ)
        → converted_text from Binary text ≡ text }
    ensures well_formed { (from to : Charset) (text : List ℕ)
        → IsWellFormed Binary text → IsWellFormed to (converted_text from to text) }
    ensures same_within_cap { (from to : Charset) (text : List ℕ) (class : Repertoire)
        → is_binary to ≡ false → IsWellFormed from text → IsRepertoire from text class
        → rank class ≤ rank (cap_of to) → chars to (converted_text from to text) ≡ chars from text }
{
    chars_law();
}
