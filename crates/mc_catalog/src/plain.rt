ghost use Rattle.std.specs.Prelude.{◌≡◌, ◌∷◌, [], ◌++◌, OnOk, OnErr, IfOk};
ghost use Rattle.mc_catalog.specs.BuiltIn.{built_in_collation, built_in_collations, plain};
ghost use Rattle.mc_catalog.specs.Lawful.{IsLawful};

use crate::{Catalog, CollDecl, Kind};
use mc_base::{List, NoMemory, Text};
use mc_charset::{Charset, CollId};
use std::alloc::Global;

/// The catalog of the built-in collations, with no table. Its connection collation is
/// `utf8mb4_bin`.
#[tactic(auto, using(crate::proofs::PlainLawful::plain_lawful))]
pub fn plain_catalog(alloc: Global) -> Result<Catalog, NoMemory>
    ensures plain { IfOk result (λ catalog. catalog ≡ plain) }
    ensures lawful { IfOk result IsLawful }
{
    Ok(Catalog {
        collations: built_in_collations(alloc)?,
        tables: List::new(alloc),
        connection: CollId(4),
    })
}

/// The nine built-in collations.
pub(crate) fn built_in_collations(alloc: Global) -> Result<List<CollDecl>, NoMemory>
    ensures { IfOk result (λ collations. collations ≡ built_in_collations) }
{
    let mut collations = List::new(alloc);
    match add_built_in(alloc, &mut collations) {
        Ok(()) => Ok(collations),
        Err(error) => Err(error),
    }
}

/// Appends the nine built-in collations to a list without members.
fn add_built_in(alloc: Global, collations: &mut List<CollDecl>) -> Result<(), NoMemory>
    requires { collations.old ≡ [] }
    ensures { OnOk result (collations.new ≡ built_in_collations) }
{
    add_bin(alloc, collations, b"binary", Charset::Binary)?;
    add_bin(alloc, collations, b"latin1_bin", Charset::Latin1)?;
    add_bin(alloc, collations, b"ascii_bin", Charset::Ascii)?;
    add_bin(alloc, collations, b"utf8mb3_bin", Charset::Utf8mb3)?;
    add_bin(alloc, collations, b"utf8mb4_bin", Charset::Utf8mb4)?;
    add_bin(alloc, collations, b"ucs2_bin", Charset::Ucs2)?;
    add_bin(alloc, collations, b"utf16_bin", Charset::Utf16)?;
    add_bin(alloc, collations, b"utf32_bin", Charset::Utf32)?;
    add_bin(alloc, collations, b"utf8mb4_0900_bin", Charset::Utf8mb4)?;
    Ok(())
}

/// Appends a built-in collation.
fn add_bin(
    alloc: Global,
    collations: &mut List<CollDecl>,
    name: &[u8],
    charset: Charset,
) -> Result<(), NoMemory>
    ensures ok { OnOk result (collations.new ≡ collations.old ++ built_in_collation name.now charset
        ∷ []) }
    ensures err { OnErr result (collations.new ≡ collations.old) }
{
    let collation = CollDecl {
        name: Text::from_slice(alloc, name)?,
        charset,
        kind: Kind::Bin,
        file: Text::new(alloc),
        rules: None,
    };
    collations.push(collation)?;
    Ok(())
}
