ghost use Rattle.std.specs.Prelude.{◌≡◌, ◌^◌, ◌<◌, length, option_map, IfSome};
ghost use Rattle.mc_catalog.specs.LookUp.{collation_set, number_of, usual_name, IsUsual};

use crate::{Catalog, CollDecl};
use mc_charset::{Charset, CollId, bin_of};

/// The collation of this name, which is in lower case; None exactly where the catalog has none.
pub fn find_collation(catalog: &Catalog, name: &[u8]) -> Option<CollId>
    requires { length catalog.now.collations < 2 ^ 32 }
    ensures { option_map (λ id. id.0) result ≡ number_of catalog.now.collations name.now }
{
    match place_of(catalog.collations.as_slice(), name) {
        Some(place) => Some(CollId(place as u32)),
        None => None,
    }
}

/// The set of the collation of a number.
pub fn collation_set(catalog: &Catalog, id: CollId) -> Charset
    requires { id.0 < length catalog.now.collations }
    ensures { result ≡ collation_set catalog.now.collations id.0 }
{
    catalog.collations.as_slice()[id.0 as usize].charset
}

/// The usual collation of a set, as `utf8mb4_0900_ai_ci` of utf8mb4, where the catalog declares it
/// with that set, else the set's binary collation.
pub fn default_of(catalog: &Catalog, set: Charset) -> CollId
    requires { length catalog.now.collations < 2 ^ 32 }
    ensures { IsUsual catalog.now.collations set result.0 }
{
    let collations = catalog.collations.as_slice();
    match place_of(collations, usual_name(set)) {
        Some(place) => {
            if collations[place].charset == set {
                CollId(place as u32)
            } else {
                bin_of(set)
            }
        }
        None => bin_of(set),
    }
}

/// The place of the first collation of this name.
fn place_of(collations: &[CollDecl], name: &[u8]) -> Option<usize>
    ensures place { result ≡ number_of collations.now name.now }
    ensures within { IfSome result (λ i. i < length collations.now) }
{
    collations
        .iter()
        .position(|collation| collation.name.as_slice() == name)
}

/// The name of a set's usual collation. MySQL 8.0 manual, 10.2.
fn usual_name(set: Charset) -> &'static [u8]
    ensures { result.now ≡ usual_name set }
{
    match set {
        Charset::Latin1 => b"latin1_swedish_ci",
        Charset::Ascii => b"ascii_general_ci",
        Charset::Utf8mb3 => b"utf8mb3_general_ci",
        Charset::Utf8mb4 => b"utf8mb4_0900_ai_ci",
        Charset::Ucs2 => b"ucs2_general_ci",
        Charset::Utf16 => b"utf16_general_ci",
        Charset::Utf32 => b"utf32_general_ci",
        Charset::Binary => b"binary",
    }
}
