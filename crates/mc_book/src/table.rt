ghost use Rattle.std.specs.Prelude.{◌≡◌, ◌≤◌, ℕ, IfOk, IfSome, IsTrue, length};
ghost use Rattle.mc_base.specs.FileOutcome.{file_outcome, greatest_file, FileCause, HasOutcome};
ghost use Rattle.mc_base.specs.Results.{result_and_then};
ghost use Rattle.mc_book.specs.Any.{any_meaning};
ghost use Rattle.mc_book.specs.Meanings.{any_set};
ghost use Rattle.mc_book.specs.BookOutcome.{bytes_outcome, codes_outcome, table_refusal};
ghost use Rattle.mc_charset.specs.Names.{is_unicode_set};
ghost use Rattle.mc_table8.specs.Table8Meaning.{is_byte_set};

use crate::AnyCollation;
use crate::fault::{BookFault, table_refusal};
use mc_base::{Files, read_file};
use mc_catalog::CollDecl;
use mc_table8::{GeneralCollation, Table8Collation, read_general, read_table8};
use std::alloc::Global;

/// The collation that a table of code points describes.
fn read_codes(alloc: Global, declared: &CollDecl, text: &[u8]) -> Result<AnyCollation, BookFault>
    requires on_unicode { IsTrue (is_unicode_set declared.now.charset) }
    requires short { length text.now ≤ greatest_file }
    ensures told { HasOutcome any_meaning result (codes_outcome declared.now text.now) }
    ensures cause { (before after : ℕ) → FileCause result before after }
    ensures set { IfOk result (λ collation. any_set collation ≡ declared.now.charset) }
{
    match read_general(alloc, text) {
        Ok(table) => {
            let collation = GeneralCollation::new(declared.charset, table);
            Ok(AnyCollation::General(collation))
        }
        Err(fault) => Err(table_refusal(alloc, &declared.file, &fault)),
    }
}

/// The collation that a table of bytes describes.
fn read_bytes(alloc: Global, declared: &CollDecl, text: &[u8]) -> Result<AnyCollation, BookFault>
    requires on_bytes { IsTrue (is_byte_set declared.now.charset) }
    requires short { length text.now ≤ greatest_file }
    ensures told { HasOutcome any_meaning result (bytes_outcome declared.now text.now) }
    ensures cause { (before after : ℕ) → FileCause result before after }
    ensures set { IfOk result (λ collation. any_set collation ≡ declared.now.charset) }
{
    match read_table8(alloc, text) {
        Ok(table) => {
            let collation = Table8Collation::new(declared.charset, table);
            Ok(AnyCollation::Table8(collation))
        }
        Err(fault) => Err(table_refusal(alloc, &declared.file, &fault)),
    }
}

/// The collation of a declaration by its table of code points.
#[tactic(auto, using(crate::proofs::ToldLemmas::unread_steps))]
pub(crate) fn load_codes<F: Files>(
    alloc: Global,
    declared: &CollDecl,
    files: &mut F,
) -> Result<AnyCollation, BookFault>
    requires { IsTrue (is_unicode_set declared.now.charset) }
    ensures kept { F.contents files.new ≡ F.contents files.old }
    ensures later { F.faults files.old ≤ F.faults files.new }
    ensures told { IfSome (F.contents files.old) (λ told. HasOutcome any_meaning result
        (result_and_then (codes_outcome declared.now) (file_outcome told declared.now.file))) }
    ensures cause { FileCause result (F.faults files.old) (F.faults files.new) }
    ensures set { IfOk result (λ collation. any_set collation ≡ declared.now.charset) }
{
    match read_file(alloc, files, &declared.file) {
        Ok(text) => read_codes(alloc, declared, text.as_slice()),
        Err(fault) => Err(fault),
    }
}

/// The collation of a declaration by its table of bytes.
#[tactic(auto, using(crate::proofs::ToldLemmas::unread_steps))]
pub(crate) fn load_bytes<F: Files>(
    alloc: Global,
    declared: &CollDecl,
    files: &mut F,
) -> Result<AnyCollation, BookFault>
    requires { IsTrue (is_byte_set declared.now.charset) }
    ensures kept { F.contents files.new ≡ F.contents files.old }
    ensures later { F.faults files.old ≤ F.faults files.new }
    ensures told { IfSome (F.contents files.old) (λ told. HasOutcome any_meaning result
        (result_and_then (bytes_outcome declared.now) (file_outcome told declared.now.file))) }
    ensures cause { FileCause result (F.faults files.old) (F.faults files.new) }
    ensures set { IfOk result (λ collation. any_set collation ≡ declared.now.charset) }
{
    match read_file(alloc, files, &declared.file) {
        Ok(text) => read_bytes(alloc, declared, text.as_slice()),
        Err(fault) => Err(fault),
    }
}
