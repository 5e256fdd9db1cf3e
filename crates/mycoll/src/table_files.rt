ghost use Rattle.std.specs.Prelude.{◌≡◌, ◌≤◌, ◌<◌, ◌^◌, ℕ, [], IfOk, IfSome, OnOk, length};
ghost use Rattle.mc_base.specs.FileOutcome.{FileCause, HasOutcome, IsRefusedAs};
ghost use Rattle.mc_catalog.specs.Lawful.{IsLawful, IsLawfulTable};
ghost use Rattle.mc_gather.specs.Tables.{AreRowsOf, AreTablesOf};
ghost use Rattle.mycoll.specs.Tables.{
  rows_fault_name,
  rows_refusal,
  table_rows,
  tables_outcome,
  text_rows,
};

use mc_base::{FileFault, Files, List, Text, read_file, refuse_file};
use mc_catalog::{Catalog, TableDecl};
use mc_rows::{RowsFault, RowsFaultKind, Table, load_rows};
use std::alloc::Global;

/// The name of the fault of a file of rows.
fn fault_name(kind: RowsFaultKind) -> &'static [u8]
    ensures { result.now ≡ rows_fault_name kind }
{
    match kind {
        RowsFaultKind::NotUtf8 => b"NotUtf8",
        RowsFaultKind::TooManyRows => b"TooManyRows",
        RowsFaultKind::WrongCount => b"WrongCount",
        RowsFaultKind::BadInt => b"BadInt",
        RowsFaultKind::BadHex => b"BadHex",
        RowsFaultKind::Unfit => b"Unfit",
        RowsFaultKind::TooLong => b"TooLong",
        RowsFaultKind::NoMemory => b"NoMemory",
    }
}

/// The fault of a file of rows as its refusal, or want of memory.
fn rows_refusal(alloc: Global, name: &Text, fault: RowsFault) -> FileFault
    ensures refused { IsRefusedAs result (rows_refusal name.now fault) }
    ensures memory { fault.kind ≡ RowsFaultKind.NoMemory → result ≡ FileFault.NoMemory }
{
    match fault.kind {
        RowsFaultKind::NoMemory => FileFault::NoMemory,
        kind => refuse_file(alloc, name, fault_name(kind), fault.at),
    }
}

/// The rows that a text says for a table.
fn read_table<L>(
    alloc: Global,
    catalog: &Catalog,
    table: &TableDecl,
    text: &[u8],
) -> Result<Table<L>, FileFault>
    requires short { length text.now < 2 ^ 32 }
    requires lawful { IsLawfulTable (length catalog.now.collations) table.now }
    ensures told { HasOutcome (λ rows. rows) result (text_rows catalog.now table.now text.now) }
    ensures cause { (before after : ℕ) → FileCause result before after }
    ensures rows { IfOk result (AreRowsOf catalog.now table.now) }
{
    match load_rows(alloc, text, table, catalog) {
        Ok(rows) => Ok(rows),
        Err(fault) => Err(rows_refusal(alloc, &table.file, fault)),
    }
}

/// The rows of a table, by its file.
#[tactic(auto, unfolding(crate::specs::Tables::table_rows), using(crate::proofs::Told::unread))]
fn open_table<F: Files, L>(
    alloc: Global,
    files: &mut F,
    catalog: &Catalog,
    table: &TableDecl,
) -> Result<Table<L>, FileFault>
    requires { IsLawfulTable (length catalog.now.collations) table.now }
    ensures kept { F.contents files.new ≡ F.contents files.old }
    ensures later { F.faults files.old ≤ F.faults files.new }
    ensures told { IfSome (F.contents files.old) (λ told.
        HasOutcome (λ rows. rows) result (table_rows told catalog.now table.now)) }
    ensures cause { FileCause result (F.faults files.old) (F.faults files.new) }
    ensures rows { IfOk result (AreRowsOf catalog.now table.now) }
{
    match read_file(alloc, files, &table.file) {
        Ok(text) => read_table(alloc, catalog, table, text.as_slice()),
        Err(fault) => Err(fault),
    }
}

/// Appends the rows of these tables to a list without any, each file read and parsed before the
/// next one is opened.
fn open_each<F: Files, L>(
    alloc: Global,
    files: &mut F,
    catalog: &Catalog,
    rows: &mut List<Table<L>>,
) -> Result<(), FileFault>
    requires empty { rows.old ≡ [] }
    requires lawful { IsLawful catalog.now }
    ensures kept { F.contents files.new ≡ F.contents files.old }
    ensures later { F.faults files.old ≤ F.faults files.new }
    ensures told { IfSome (F.contents files.old) (λ told.
        HasOutcome (λ _. rows.new) result (tables_outcome told catalog.now)) }
    ensures cause { FileCause result (F.faults files.old) (F.faults files.new) }
    ensures rows { OnOk result (AreTablesOf catalog.now rows.new) }
{
    for table in catalog.tables.as_slice() {
        match open_table(alloc, files, catalog, table) {
            Ok(loaded) => rows.push(loaded)?,
            Err(fault) => return Err(fault),
        }
    }
    Ok(())
}

/// The rows of the catalog's tables, by their files in the order of the catalog. Each is read whole
/// and parsed before the next one is opened, and the first refusal ends it.
pub fn open_tables<F: Files, L>(
    alloc: Global,
    files: &mut F,
    catalog: &Catalog,
) -> Result<List<Table<L>>, FileFault>
    requires { IsLawful catalog.now }
    ensures kept { F.contents files.new ≡ F.contents files.old }
    ensures later { F.faults files.old ≤ F.faults files.new }
    ensures told { IfSome (F.contents files.old) (λ told.
        HasOutcome (λ rows. rows) result (tables_outcome told catalog.now)) }
    ensures cause { FileCause result (F.faults files.old) (F.faults files.new) }
    ensures rows { IfOk result (AreTablesOf catalog.now) }
{
    let mut rows = List::new(alloc);
    match open_each(alloc, files, catalog, &mut rows) {
        Ok(()) => Ok(rows),
        Err(fault) => {
            drop(rows);
            Err(fault)
        }
    }
}
