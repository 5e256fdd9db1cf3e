ghost use Rattle.std.specs.Option.{option_copied};
ghost use Rattle.std.specs.Prelude.{◌≡◌, ◌≤◌, IfOk, IfSome, IsUtf8, length};
ghost use Rattle.mc_base.specs.FileOutcome.{greatest_file, FileCause, HasOutcome};
ghost use Rattle.mc_catalog.specs.Lawful.{IsLawful};
ghost use Rattle.mc_gather.specs.Tables.{AreTablesOf};
ghost use Rattle.mycoll.specs.Opened.{IsSound, accepted_of, opening_of};
ghost use Rattle.mycoll.specs.Outcome.{
  files_outcome,
  opening_outcome,
  with_book,
  with_script,
  with_tables,
};

use crate::catalog_file::open_catalog;
use crate::script::open_script;
use crate::table_files::open_tables;
use crate::words::FileNames;
use mc_base::{FileFault, Files, List, Text};
use mc_book::{AnyBook, build_book};
use mc_catalog::Catalog;
use mc_rows::Table;
use std::alloc::Global;

/// What is to be answered, and by what, apart from rows: a script, a catalog, and the book of its
/// collations.
#[derive(Drop)]
pub struct Opened {
    pub catalog: Catalog,
    pub script: Text,
    pub book: AnyBook,
}

/// A catalog and a script, with the book of the collations.
#[tactic(auto, unfolding(crate::specs::Outcome::with_book), using(crate::proofs::Told::unread))]
fn open_book<F: Files>(
    alloc: Global,
    files: &mut F,
    catalog: Catalog,
    script: Text,
) -> Result<Opened, FileFault>
    requires lawful { IsLawful catalog }
    requires utf8 { IsUtf8 script }
    requires short { length script ≤ greatest_file }
    ensures kept { F.contents files.new ≡ F.contents files.old }
    ensures later { F.faults files.old ≤ F.faults files.new }
    ensures told { IfSome (F.contents files.old) (λ told.
        HasOutcome opening_of result (with_book told catalog script)) }
    ensures cause { FileCause result (F.faults files.old) (F.faults files.new) }
    ensures sound { IfOk result IsSound }
{
    match build_book(alloc, &catalog, files) {
        Ok(book) => Ok(Opened {
            catalog,
            script,
            book,
        }),
        Err(fault) => Err(fault),
    }
}

/// A catalog, with the script of this name and the book.
#[tactic(auto, unfolding(crate::specs::Outcome::with_script), using(crate::proofs::Told::unread))]
fn open_rest<F: Files>(
    alloc: Global,
    files: &mut F,
    script: &Text,
    catalog: Catalog,
) -> Result<Opened, FileFault>
    requires { IsLawful catalog }
    ensures kept { F.contents files.new ≡ F.contents files.old }
    ensures later { F.faults files.old ≤ F.faults files.new }
    ensures told { IfSome (F.contents files.old) (λ told.
        HasOutcome opening_of result (with_script told script.now catalog)) }
    ensures cause { FileCause result (F.faults files.old) (F.faults files.new) }
    ensures sound { IfOk result IsSound }
{
    match open_script(alloc, files, script) {
        Ok(script) => open_book(alloc, files, catalog, script),
        Err(fault) => Err(fault),
    }
}

/// Opens the catalog and the script that are named, and the files of each declared collation.
#[tactic(auto, unfolding(crate::specs::Outcome::opening_outcome), using(crate::proofs::Told::unread))]
fn open_named<F: Files>(
    alloc: Global,
    files: &mut F,
    named: FileNames<'_>,
) -> Result<Opened, FileFault>
    ensures kept { F.contents files.new ≡ F.contents files.old }
    ensures later { F.faults files.old ≤ F.faults files.new }
    ensures told { IfSome (F.contents files.old) (λ told. HasOutcome opening_of result
        (opening_outcome told (record {
          catalog = option_copied named.entry.catalog;
          script = named.entry.script.now;
        }))) }
    ensures cause { FileCause result (F.faults files.old) (F.faults files.new) }
    ensures sound { IfOk result IsSound }
{
    match open_catalog(alloc, files, named.catalog) {
        Ok(catalog) => open_rest(alloc, files, named.script, catalog),
        Err(fault) => Err(fault),
    }
}

/// What was opened, with the rows of the tables.
#[tactic(auto, unfolding(crate::specs::Outcome::with_tables), using(crate::proofs::Told::unread))]
fn with_rows<F: Files, L>(
    alloc: Global,
    files: &mut F,
    opened: Opened,
) -> Result<(Opened, List<Table<L>>), FileFault>
    requires { IsSound opened }
    ensures kept { F.contents files.new ≡ F.contents files.old }
    ensures later { F.faults files.old ≤ F.faults files.new }
    ensures told { IfSome (F.contents files.old) (λ told.
        HasOutcome accepted_of result (with_tables told (opening_of opened))) }
    ensures cause { FileCause result (F.faults files.old) (F.faults files.new) }
    ensures sound { IfOk result (λ all. IsSound all.0) }
    ensures rows { IfOk result (λ all. AreTablesOf all.0.catalog all.1) }
{
    match open_tables(alloc, files, &opened.catalog) {
        Ok(rows) => Ok((opened, rows)),
        Err(fault) => {
            drop(opened);
            Err(fault)
        }
    }
}

/// Opens the files that are named, and those that their catalog names: the catalog, the script, the
/// files of each declared collation and then those of the tables, in the order of the catalog. Each
/// is read whole and parsed before the next is opened.
#[tactic(auto, unfolding(crate::specs::Outcome::files_outcome), using(crate::proofs::Told::unread))]
pub fn open_files<F: Files, L>(
    alloc: Global,
    files: &mut F,
    named: FileNames<'_>,
) -> Result<(Opened, List<Table<L>>), FileFault>
    ensures kept { F.contents files.new ≡ F.contents files.old }
    ensures later { F.faults files.old ≤ F.faults files.new }
    ensures told { IfSome (F.contents files.old) (λ told. HasOutcome accepted_of result
        (files_outcome told (record {
          catalog = option_copied named.entry.catalog;
          script = named.entry.script.now;
        }))) }
    ensures cause { FileCause result (F.faults files.old) (F.faults files.new) }
    ensures sound { IfOk result (λ all. IsSound all.0) }
    ensures rows { IfOk result (λ all. AreTablesOf all.0.catalog all.1) }
{
    match open_named(alloc, files, named) {
        Ok(opened) => with_rows(alloc, files, opened),
        Err(fault) => Err(fault),
    }
}
