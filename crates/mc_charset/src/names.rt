ghost use Rattle.mc_charset.specs.Names.{
  name_of,
  Names,
  set_named,
  same_set,
  is_unicode_set,
  built_in_names,
  bin_name,
  bin_number,
};
ghost use Rattle.mc_charset.specs.declared.charset.Charset.{Charset};
ghost use Rattle.std.specs.Char.{to_ascii_lowercase};
ghost use Rattle.std.specs.Prelude.{◌≡◌, ◌↔◌, IsTrue, Some, map, slice_get};
ghost use Rattle.std.specs.Str.{bytes_eq};

use crate::charset::Charset;
use crate::collation_id::CollId;

/// The set of this name, the case of A to Z ignored; `utf8` is another name of utf8mb3.
/// `None` exactly for other names. MySQL 8.0 manual, 10.2.
pub fn charset_by_name(name: &[u8]) -> Option<Charset>
    ensures is { result ≡ set_named name.now }
    ensures names { (set : Charset) → (result ≡ Some set) ↔ Names name.now set }
{
    listed_set(name)
}

/// The set that the list of names has for this name.
#[tactic(auto, unfolding(crate::specs::Names::set_named))]
fn listed_set(name: &[u8]) -> Option<Charset>
    ensures { result ≡ set_named name.now }
{
    if is_named(name, b"latin1") {
        Some(Charset::Latin1)
    } else if is_named(name, b"ascii") {
        Some(Charset::Ascii)
    } else if is_named(name, b"utf8mb3") {
        Some(Charset::Utf8mb3)
    } else if is_named(name, b"utf8mb4") {
        Some(Charset::Utf8mb4)
    } else if is_named(name, b"ucs2") {
        Some(Charset::Ucs2)
    } else if is_named(name, b"utf16") {
        Some(Charset::Utf16)
    } else if is_named(name, b"utf32") {
        Some(Charset::Utf32)
    } else if is_named(name, b"binary") {
        Some(Charset::Binary)
    } else if is_named(name, b"utf8") {
        Some(Charset::Utf8mb3)
    } else {
        None
    }
}

/// Whether this is the name in lower case, the case of A to Z ignored.
fn is_named(name: &[u8], lower: &[u8]) -> bool
    requires { map to_ascii_lowercase lower.now ≡ lower.now }
    ensures { result ≡ bytes_eq (map to_ascii_lowercase name.now) lower.now }
{
    name.eq_ignore_ascii_case(lower)
}

/// Whether two sets are one.
#[tactic(auto, unfolding(crate::specs::Names::same_set))]
pub fn same_set(set: Charset, other: Charset) -> bool
    ensures is { result ≡ same_set set other }
    ensures one { IsTrue result ↔ (set ≡ other) }
{
    set == other
}

/// The name of a set, in lower case.
pub fn charset_name(set: Charset) -> &'static str
    ensures { result.now ≡ name_of set }
{
    match set {
        Charset::Latin1 => "latin1",
        Charset::Ascii => "ascii",
        Charset::Utf8mb3 => "utf8mb3",
        Charset::Utf8mb4 => "utf8mb4",
        Charset::Ucs2 => "ucs2",
        Charset::Utf16 => "utf16",
        Charset::Utf32 => "utf32",
        Charset::Binary => "binary",
    }
}

/// Whether it is a Unicode set: utf8mb3, utf8mb4, ucs2, utf16 or utf32. MySQL 8.0 manual, 10.9.
pub fn is_unicode(set: Charset) -> bool
    ensures { result ≡ is_unicode_set set }
{
    match set {
        Charset::Utf8mb3 | Charset::Utf8mb4 | Charset::Ucs2 | Charset::Utf16 | Charset::Utf32 =>
            true,
        Charset::Latin1 | Charset::Ascii | Charset::Binary => false,
    }
}

/// The binary collation of a set: `binary` for binary, else the one named after the set with
/// `_bin`.
pub fn bin_of(set: Charset) -> CollId
    ensures name { slice_get built_in_names result.0 ≡ Some (bin_name set) }
    ensures number { result.0 ≡ bin_number set }
{
    CollId(match set {
        Charset::Binary => 0,
        Charset::Latin1 => 1,
        Charset::Ascii => 2,
        Charset::Utf8mb3 => 3,
        Charset::Utf8mb4 => 4,
        Charset::Ucs2 => 5,
        Charset::Utf16 => 6,
        Charset::Utf32 => 7,
    })
}
