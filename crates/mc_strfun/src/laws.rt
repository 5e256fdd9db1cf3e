ghost use Rattle.mc_charset.specs.Chars.{Spells};
ghost use Rattle.mc_charset.specs.declared.charset.Charset.{Charset};
ghost use Rattle.mc_strfun.specs.Trimmed.{
  IsLeftBefore,
  IsLeftBehind,
  without_leading,
  without_trailing,
};
ghost use Rattle.std.specs.List.{repeat};
ghost use Rattle.std.specs.Prelude.{◌<◌, ℕ, List, length};

use mc_charset::chars_law;

/// Copies of a text are spelled by as many copies of its characters.
pub fn repeat_law()
    ensures { (set : Charset) (codes text : List ℕ) (count : ℕ)
        → Spells set codes text → Spells set (repeat count codes) (repeat count text) }
{
    chars_law();
}

/// What TRIM removes at a side is whole copies, and what it leaves has no more of them there.
pub fn trim_law()
    ensures leading { (removed codes : List ℕ) → 0 < length removed
        → IsLeftBehind removed codes (without_leading removed codes) }
    ensures trailing { (removed codes : List ℕ) → 0 < length removed
        → IsLeftBefore removed codes (without_trailing removed codes) }
{}
