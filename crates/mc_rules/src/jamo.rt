ghost use Rattle.std.specs.Prelude.{◌≡◌, ◌<◌, ◌≤◌, ◌/◌, ◌%◌, ◌+◌, ◌-◌};
ghost use Rattle.mc_rules.specs.Jamo.{is_syllable};

use crate::bases::is_from;

/// Whether a code point is a Hangul syllable.
pub(crate) fn is_syllable(code: u32) -> bool
    ensures { result ≡ is_syllable code }
{
    is_from(0xAC00, 0xD7A3, code)
}
