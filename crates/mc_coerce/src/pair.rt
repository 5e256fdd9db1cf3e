ghost use Rattle.mc_coerce.specs.Pair.{beats, beats_across_sets, beats_in_set, has_precedence};
ghost use Rattle.mc_coerce.specs.Pair.{is_ascii};
ghost use Rattle.std.specs.Prelude.{◌≡◌};

use crate::levels::EXPLICIT;
use crate::operand::Operand;
use crate::sets::{are_unicode_apart, extends, is_binary, is_unicode_beside_other};
use mc_charset::same_set;
use mc_convert::{Repertoire, cap};

/// Whether the first operand beats the second: whether its set and collation may stand for both.
/// Of one collation the level decides; of two explicit ones none beats; of one set the level and
/// then a built-in collation; of two sets the first has to hold the second's repertoire, and then
/// the level decides, and the sets. MySQL 8.0 manual, 10.8.4; between sets it is this project's.
pub fn beats(a: &Operand, b: &Operand) -> bool
    ensures { result ≡ beats a.now b.now }
{
    if a.collation == b.collation {
        a.level <= b.level
    } else if a.level == EXPLICIT && b.level == EXPLICIT {
        false
    } else if same_set(a.charset, b.charset) {
        beats_in_set(a, b)
    } else {
        beats_across_sets(a, b)
    }
}

/// The same of two collations of one set.
fn beats_in_set(a: &Operand, b: &Operand) -> bool
    ensures { result ≡ beats_in_set a.now b.now }
{
    a.level < b.level || (a.level == b.level && a.bin && !b.bin)
}

/// The same of operands of two sets.
fn beats_across_sets(a: &Operand, b: &Operand) -> bool
    ensures { result ≡ beats_across_sets a.now b.now }
{
    b.repertoire.is_at_most(cap(a.charset))
        && (a.level < b.level || (a.level == b.level && has_precedence(a, b)))
}

/// Of equal levels and two sets, whether the first one's set is the one to convert to.
fn has_precedence(a: &Operand, b: &Operand) -> bool
    ensures { result ≡ has_precedence a.now b.now }
{
    is_binary(a.charset)
        || is_unicode_beside_other(a.charset, b.charset)
        || extends(a.charset, b.charset)
        || (are_unicode_apart(a.charset, b.charset) && is_ascii(b) && !is_ascii(a))
}

/// Whether each character is below U+0080.
fn is_ascii(a: &Operand) -> bool
    ensures { result ≡ is_ascii a.now }
{
    a.repertoire == Repertoire::Ascii
}
