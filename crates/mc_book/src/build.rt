ghost use Rattle.std.specs.Prelude.{
  ◌≡◌,
  ◌≤◌,
  ◌++◌,
  [],
  List,
  IfOk,
  IfSome,
  All,
  drop,
  length,
  map,
};
ghost use Rattle.mc_base.specs.FileOutcome.{FileCause, HasOutcome};
ghost use Rattle.mc_book.specs.Any.{any_meaning};
ghost use Rattle.mc_book.specs.BookOutcome.{book_outcome, declared_outcome, behind_outcome};
ghost use Rattle.mc_book.specs.BookOutcome.{weights_outcome};
ghost use Rattle.mc_book.specs.Meanings.{any_set, meaning_at, meanings};
ghost use Rattle.mc_catalog.specs.Fits.{FitsCatalog};
ghost use Rattle.mc_catalog.specs.Lawful.{IsLawful, IsLawfulCollation};
ghost use Rattle.mc_catalog.specs.Limits.{built_in_count};
ghost use Rattle.mc_book.specs.declared.any_collation.AnyCollation.TheVariants.{Bin};
ghost use Rattle.mc_order.specs.Bin.{built_in};

use crate::elements::load_uca;
use crate::fault::BookFault;
use crate::kinds::{declared_collations, uca_kind};
use crate::table::{load_bytes, load_codes};
use crate::{AnyBook, AnyCollation};
use mc_base::{Files, List, NoMemory, refuse_file};
use mc_catalog::{Catalog, CollDecl, Kind};
use mc_charset::CollId;
use mc_order::BinCollation;
use std::alloc::Global;

/// The built-in collations, in the order of their numbers.
fn built_in_collations(alloc: Global) -> Result<List<AnyCollation>, NoMemory>
    ensures { IfOk result (λ collations. collations ≡ map Bin built_in) }
{
    let mut collations = List::new(alloc);
    for id in 0..9 {
        collations.push(AnyCollation::Bin(BinCollation::new(CollId(id))))?;
    }
    Ok(collations)
}

/// The collation of a declaration of a kind that is no Unicode one, by its file.
fn load_weights<F: Files>(
    alloc: Global,
    declared: &CollDecl,
    files: &mut F,
) -> Result<AnyCollation, BookFault>
    requires { IsLawfulCollation declared.now }
    ensures kept { F.contents files.new ≡ F.contents files.old }
    ensures later { F.faults files.old ≤ F.faults files.new }
    ensures told { IfSome (F.contents files.old) (λ told.
        HasOutcome any_meaning result (weights_outcome told declared.now)) }
    ensures cause { FileCause result (F.faults files.old) (F.faults files.new) }
    ensures set { IfOk result (λ collation. any_set collation ≡ declared.now.charset) }
{
    match declared.kind {
        Kind::Table8 => load_bytes(alloc, declared, files),
        Kind::General => load_codes(alloc, declared, files),
        _ => Err(refuse_file(alloc, &declared.file, b"NotBuilt", 0)),
    }
}

/// The collation of a declaration, by the files of its kind.
#[tactic(auto, unfolding(crate::specs::BookOutcome::declared_outcome))]
fn load<F: Files>(
    alloc: Global,
    declared: &CollDecl,
    files: &mut F,
) -> Result<AnyCollation, BookFault>
    requires { IsLawfulCollation declared.now }
    ensures kept { F.contents files.new ≡ F.contents files.old }
    ensures later { F.faults files.old ≤ F.faults files.new }
    ensures told { IfSome (F.contents files.old) (λ told.
        HasOutcome any_meaning result (declared_outcome told declared.now)) }
    ensures cause { FileCause result (F.faults files.old) (F.faults files.new) }
    ensures set { IfOk result (λ collation. any_set collation ≡ declared.now.charset) }
{
    match uca_kind(declared.kind) {
        Some(kind) => load_uca(alloc, declared, kind, files),
        None => load_weights(alloc, declared, files),
    }
}

/// The collations of these declarations behind those of a list, each file read and parsed before
/// the next one is opened.
fn load_all<F: Files>(
    alloc: Global,
    declared: &[CollDecl],
    files: &mut F,
    mut collations: List<AnyCollation>,
) -> Result<List<AnyCollation>, BookFault>
    requires { All IsLawfulCollation declared.now }
    ensures kept { F.contents files.new ≡ F.contents files.old }
    ensures later { F.faults files.old ≤ F.faults files.new }
    ensures told { IfSome (F.contents files.old) (λ told.
        HasOutcome meanings result
        (behind_outcome (meanings collations) (map (declared_outcome told) declared.now))) }
    ensures cause { FileCause result (F.faults files.old) (F.faults files.new) }
    ensures sets { IfOk result (λ all.
        map any_set all ≡ map any_set collations ++ map (λ each. each.charset) declared.now) }
    ensures unopened { declared.now ≡ [] → files.new ≡ files.old }
{
    for each in declared {
        let collation = load(alloc, each, files)?;
        collations.push(collation)?;
    }
    Ok(collations)
}

/// The book of a catalog's collations: the nine built-in ones, then the declared ones, each by the
/// files of its kind. The files are read in the order of the catalog, each whole and parsed before
/// the next one is opened, and the first refusal ends it (MySQL 8.0 manual, 10.14).
///
/// A file is refused by the name of its fault and a number: `Absent` 0; `TooLong` 16777216, for
/// more bytes than that; the line, from 1, for `BadLine`, `Repeated` and the other faults of the
/// lines of an element table; `Missing` the byte; `SpaceWeight` 0, where an element table gives the
/// space no or several weights and texts are padded; `NotBuilt` 0, for a collation with rules.
#[tactic(auto, unfolding(crate::specs::BookOutcome::book_outcome))]
pub fn build_book<F: Files>(alloc: Global, c: &Catalog, files: &mut F) -> Result<AnyBook, BookFault>
    requires { IsLawful c.now }
    ensures kept { F.contents files.new ≡ F.contents files.old }
    ensures later { F.faults files.old ≤ F.faults files.new }
    // The book and the refusal are those of the files' contents.
    ensures told { IfSome (F.contents files.old) (λ told.
        HasOutcome meanings result (book_outcome told c.now.collations)) }
    ensures cause { FileCause result (F.faults files.old) (F.faults files.new) }
    // The book has as many collations as the catalog, each of the declared set.
    ensures fits { IfOk result (λ book. FitsCatalog c.now (length book)
        (λ id. (meaning_at (meanings book) id).charset)) }
    ensures unopened { drop built_in_count c.now.collations ≡ [] → files.new ≡ files.old }
{
    let built_in = built_in_collations(alloc)?;
    match load_all(alloc, declared_collations(c), files, built_in) {
        Ok(collations) => Ok(AnyBook::new(collations)),
        Err(fault) => Err(fault),
    }
}
