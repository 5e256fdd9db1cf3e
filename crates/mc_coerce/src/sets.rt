ghost use Rattle.mc_coerce.specs.Sets.{are_unicode_apart, extends, is_unicode_beside_other};
ghost use Rattle.mc_convert.specs.Conversion.{is_binary};
ghost use Rattle.std.specs.Prelude.{◌≡◌};

use mc_charset::{Charset, is_unicode};

/// Whether the set is binary.
pub(crate) fn is_binary(set: Charset) -> bool
    ensures { result ≡ is_binary set }
{
    match set {
        Charset::Binary => true,
        _ => false,
    }
}

/// Whether the two sets, in this order, are utf8mb4 and utf8mb3, utf16 and ucs2, or latin1 and
/// ascii.
pub(crate) fn extends(set: Charset, other: Charset) -> bool
    ensures { result ≡ extends set other }
{
    match (set, other) {
        (Charset::Utf8mb4, Charset::Utf8mb3)
        | (Charset::Utf16, Charset::Ucs2)
        | (Charset::Latin1, Charset::Ascii) => true,
        _ => false,
    }
}

/// Whether the set is Unicode and the other one is neither Unicode nor binary.
pub(crate) fn is_unicode_beside_other(set: Charset, other: Charset) -> bool
    ensures { result ≡ is_unicode_beside_other set other }
{
    is_unicode(set) && !is_unicode(other) && !is_binary(other)
}

/// Whether both sets are Unicode, and in neither order one of the pairs of `extends`.
pub(crate) fn are_unicode_apart(set: Charset, other: Charset) -> bool
    ensures { result ≡ are_unicode_apart set other }
{
    is_unicode(set) && is_unicode(other) && !(extends(set, other) || extends(other, set))
}
