ghost use Rattle.mc_charset.specs.Chars.{Spells};
ghost use Rattle.mc_charset.specs.declared.charset.Charset.{Charset};
ghost use Rattle.mc_convert.specs.Conversion.{unit_len};
ghost use Rattle.mc_values.specs.Shown.{Shown, Shows, shown};
ghost use Rattle.mc_values.specs.Values.{IsTextOfSet};
ghost use Rattle.mc_values.specs.declared.value.Value.{Value};
ghost use Rattle.std.specs.Prelude.{◌≡◌, ℕ, List};
ghost use Rattle.std.specs.Str.{IsAscii};

use mc_charset::chars_law;

/// The laws of what values show: a value shows something exactly where its string is a text of its
/// set; it shows one thing; no two values show the same.
pub fn shown_law()
    ensures shows { (value : Value) → IsTextOfSet value → Shows value (shown value) }
    ensures text_of_set { (value : Value) (it : Shown) → Shows value it → IsTextOfSet value }
    ensures one { (value : Value) (it : Shown) → Shows value it → it ≡ shown value }
    ensures apart { (value other : Value) (it : Shown) → Shows value it → Shows other it
        → value ≡ other }
{
    chars_law();
}

/// In the sets whose shortest spellings are single bytes, all but ucs2, utf16 and utf32, an ASCII
/// text is spelled by its own bytes.
pub fn ascii_law()
    ensures { (set : Charset) (text : List ℕ) → unit_len set ≡ 1 → IsAscii text
        → Spells set text text }
{}
