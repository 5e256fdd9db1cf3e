ghost use Rattle.std.specs.Prelude.{◌≡◌, ◌≤◌, ◌↔◌, All, IfSome, IsTrue, drop};
ghost use Rattle.mc_book.specs.BookOutcome.{IsBuilt, has_table, is_built_collation};
ghost use Rattle.mc_book.specs.UcaOutcome.{uca_kind};
ghost use Rattle.mc_catalog.specs.Lawful.{IsLawful};
ghost use Rattle.mc_catalog.specs.Limits.{built_in_count};
ghost use Rattle.mc_uca.specs.Kind.{levels_of};

use mc_catalog::{Catalog, CollDecl, Kind};
use mc_uca::UcaKind;

/// How many collations are built in.
const BUILT_IN_COUNT: usize = 9;

/// Whether the weights of a kind are read from a file.
fn has_table(kind: Kind) -> bool
    ensures { result ≡ has_table kind }
{
    !matches!(kind, Kind::Bin)
}

/// Whether a declared collation is built: its weights are read from a file and not tailored.
#[tactic(auto, unfolding(crate::specs::BookOutcome::is_built_collation))]
fn is_built_collation(declared: &CollDecl) -> bool
    ensures { result ≡ is_built_collation declared.now }
{
    has_table(declared.kind) && declared.rules.is_none()
}

/// The kind of the Unicode collations of a kind, if it has them. They have one to three levels.
pub(crate) fn uca_kind(kind: Kind) -> Option<UcaKind>
    ensures is { result ≡ uca_kind kind }
    ensures some_level { IfSome result (λ uca. 1 ≤ levels_of uca) }
    ensures few_levels { IfSome result (λ uca. levels_of uca ≤ 3) }
{
    match kind {
        Kind::Uca400 => Some(UcaKind::Uca4),
        Kind::Uca520 => Some(UcaKind::Uca520),
        Kind::Uca900AiCi => Some(UcaKind::Uca9 { levels: 1 }),
        Kind::Uca900AsCi => Some(UcaKind::Uca9 { levels: 2 }),
        Kind::Uca900AsCs => Some(UcaKind::Uca9 { levels: 3 }),
        Kind::Bin | Kind::Table8 | Kind::General => None,
    }
}

/// The collations behind the built-in ones.
pub(crate) fn declared_collations(c: &Catalog) -> &[CollDecl]
    requires { IsLawful c.now }
    ensures { result.now ≡ drop built_in_count c.now.collations }
{
    &c.collations.as_slice()[BUILT_IN_COUNT..]
}

/// Whether all collations that a catalog declares are built: their weights are read from a file,
/// and no rules tailor them.
pub fn declares_built_kinds(c: &Catalog) -> bool
    requires { IsLawful c.now }
    ensures { IsTrue result ↔ All IsBuilt (drop built_in_count c.now.collations) }
{
    declared_collations(c)
        .iter()
        .all(|each| is_built_collation(each))
}
