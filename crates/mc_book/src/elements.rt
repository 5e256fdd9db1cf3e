ghost use Rattle.std.specs.Prelude.{◌≡◌, ◌≤◌, ℕ, IfOk, IfSome, IsTrue, length};
ghost use Rattle.mc_base.specs.FileOutcome.{file_outcome, greatest_file, FileCause, HasOutcome};
ghost use Rattle.mc_base.specs.Results.{result_and_then};
ghost use Rattle.mc_book.specs.Any.{any_meaning};
ghost use Rattle.mc_book.specs.Meanings.{any_set};
ghost use Rattle.mc_book.specs.UcaOutcome.{elements_outcome, keys_meaning, uca_outcome};
ghost use Rattle.mc_charset.specs.Names.{is_unicode_set};
ghost use Rattle.mc_uca.specs.Kind.{levels_of};

use crate::AnyCollation;
use crate::fault::{BookFault, keys_refusal};
use mc_allkeys::{Keys, read_allkeys};
use mc_base::{Files, read_file, refuse_file};
use mc_catalog::CollDecl;
use mc_uca::{UcaCollation, UcaFault, UcaKind};
use std::alloc::Global;

/// The collation of a table of elements.
fn of_keys(
    alloc: Global,
    declared: &CollDecl,
    kind: UcaKind,
    keys: Keys,
) -> Result<AnyCollation, BookFault>
    requires on_unicode { IsTrue (is_unicode_set declared.now.charset) }
    requires some_level { 1 ≤ levels_of kind }
    requires few_levels { levels_of kind ≤ 3 }
    ensures told { HasOutcome any_meaning result (keys_meaning declared.now kind keys) }
    ensures cause { (before after : ℕ) → FileCause result before after }
    ensures set { IfOk result (λ collation. any_set collation ≡ declared.now.charset) }
{
    match UcaCollation::new(alloc, kind, declared.charset, keys) {
        Ok(collation) => Ok(AnyCollation::Uca(collation)),
        Err(UcaFault::SpaceWeight) => Err(refuse_file(alloc, &declared.file, b"SpaceWeight", 0)),
        Err(UcaFault::NoMemory) => Err(BookFault::NoMemory),
    }
}

/// The collation that a table of elements describes.
fn read_elements(
    alloc: Global,
    declared: &CollDecl,
    kind: UcaKind,
    text: &[u8],
) -> Result<AnyCollation, BookFault>
    requires on_unicode { IsTrue (is_unicode_set declared.now.charset) }
    requires some_level { 1 ≤ levels_of kind }
    requires few_levels { levels_of kind ≤ 3 }
    requires short { length text.now ≤ greatest_file }
    ensures told { HasOutcome any_meaning result
        (elements_outcome declared.now kind text.now) }
    ensures cause { (before after : ℕ) → FileCause result before after }
    ensures set { IfOk result (λ collation. any_set collation ≡ declared.now.charset) }
{
    match read_allkeys(alloc, text) {
        Ok(keys) => of_keys(alloc, declared, kind, keys),
        Err(fault) => Err(keys_refusal(alloc, &declared.file, &fault)),
    }
}

/// The collation of a declaration by its table of elements.
#[tactic(auto, using(crate::proofs::ToldLemmas::unread_steps))]
fn load_elements<F: Files>(
    alloc: Global,
    declared: &CollDecl,
    kind: UcaKind,
    files: &mut F,
) -> Result<AnyCollation, BookFault>
    requires on_unicode { IsTrue (is_unicode_set declared.now.charset) }
    requires some_level { 1 ≤ levels_of kind }
    requires few_levels { levels_of kind ≤ 3 }
    ensures kept { F.contents files.new ≡ F.contents files.old }
    ensures later { F.faults files.old ≤ F.faults files.new }
    ensures told { IfSome (F.contents files.old) (λ told. HasOutcome any_meaning result
        (result_and_then (elements_outcome declared.now kind)
        (file_outcome told declared.now.file))) }
    ensures cause { FileCause result (F.faults files.old) (F.faults files.new) }
    ensures set { IfOk result (λ collation. any_set collation ≡ declared.now.charset) }
{
    match read_file(alloc, files, &declared.file) {
        Ok(text) => read_elements(alloc, declared, kind, text.as_slice()),
        Err(fault) => Err(fault),
    }
}

/// The collation of a declaration of this Unicode kind, unless it is tailored.
pub(crate) fn load_uca<F: Files>(
    alloc: Global,
    declared: &CollDecl,
    kind: UcaKind,
    files: &mut F,
) -> Result<AnyCollation, BookFault>
    requires on_unicode { IsTrue (is_unicode_set declared.now.charset) }
    requires some_level { 1 ≤ levels_of kind }
    requires few_levels { levels_of kind ≤ 3 }
    ensures kept { F.contents files.new ≡ F.contents files.old }
    ensures later { F.faults files.old ≤ F.faults files.new }
    ensures told { IfSome (F.contents files.old) (λ told.
        HasOutcome any_meaning result (uca_outcome told declared.now kind)) }
    ensures cause { FileCause result (F.faults files.old) (F.faults files.new) }
    ensures set { IfOk result (λ collation. any_set collation ≡ declared.now.charset) }
{
    match declared.rules {
        None => load_elements(alloc, declared, kind, files),
        Some(_) => Err(refuse_file(alloc, &declared.file, b"NotBuilt", 0)),
    }
}
