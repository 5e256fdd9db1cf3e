ghost use Rattle.std.specs.Prelude.{
  ◌≡◌,
  ◌≢◌,
  ◌<◌,
  ◌≤◌,
  ◌^◌,
  [],
  All,
  Err,
  IfErr,
  IfOk,
  IsUtf8,
  MatchResult,
  Ok,
  OnOk,
  Some,
  length,
  map,
};
ghost use Rattle.csv.specs.Reading.{
  Ready,
  default_config,
  reader_config,
  reader_state,
  reader_trim,
  source_of,
  strip_bom,
};
ghost use Rattle.csv.specs.Records.{fields_of};
ghost use Rattle.csv.specs.declared.parser.State.TheVariants as st;
ghost use Rattle.csv.specs.declared.reader.Trim.TheVariants as trim;
ghost use Rattle.mc_catalog.specs.Lawful.{IsLawfulTable, IsLawfulType};
ghost use Rattle.mc_rows.specs.Outcome.{IsAccepted, IsRefused, rows_outcome};
ghost use Rattle.mc_rows.specs.Records.{IsOfColumns, most_rows, records_of, row_in};
ghost use Rattle.mc_rows.specs.Told.{AreLoaded, AreTexts, IsAdded, IsTold};
ghost use Rattle.mc_rows.specs.declared.fault.RowsFaultKind.TheVariants.{NoMemory as OutOfMemory};

use crate::fault::{RowsFault, RowsFaultKind};
use crate::row::read_row;
use crate::table::Table;
use crate::utf8::valid_prefix;
use csv::{ByteRecord, Reader, ReaderBuilder};
use mc_base::{List, NoMemory};
use mc_catalog::{Catalog, ColumnDecl, TableDecl};
use mc_values::Row;
use std::alloc::Global;

/// How many rows a table has at most.
const MOST_ROWS: usize = 200_000;

/// The rows that a file of comma-separated values says for a table of the catalog, or its first
/// fault. The file is UTF-8; a byte order mark is left out, blank lines are skipped, there is no
/// header record. The field `\N` is NULL, a bigint an optional `-` and digits, a binary field pairs
/// of hexadecimal digits, and any other one is converted to the set of its column.
pub fn load_rows<L>(
    alloc: Global,
    text: &[u8],
    table: &TableDecl,
    catalog: &Catalog,
) -> Result<Table<L>, RowsFault>
    requires below_4_gib { length text.now < 2 ^ 32 }
    requires lawful { IsLawfulTable (length catalog.now.collations) table.now }
    ensures accepted { IfOk result (λ rows.
        IsAccepted catalog.now.collations table.now.columns text.now) }
    ensures value { IfOk result (λ rows.
        rows ≡ map (row_in catalog.now.collations table.now.columns) (records_of text.now)) }
    ensures of_columns { IfOk result (λ rows.
        All (IsOfColumns catalog.now.collations table.now.columns) rows) }
    ensures few { IfOk result (λ rows. length rows ≤ most_rows) }
    ensures refused { IfErr result (λ fault.
        IsRefused catalog.now.collations table.now.columns text.now fault.kind fault.at) }
    ensures outcome { MatchResult result
        (λ rows. rows_outcome catalog.now.collations table.now.columns text.now ≡ Ok rows)
        (λ fault. fault.kind ≢ OutOfMemory
        → rows_outcome catalog.now.collations table.now.columns text.now ≡ Err fault) }
{
    match read_rows(alloc, text, table.columns.as_slice(), catalog) {
        Ok(rows) => Ok(Table::new(rows)),
        Err(fault) => Err(fault),
    }
}

/// The rows that a file says.
#[tactic(auto, using(crate::proofs::Refused::no_text))]
fn read_rows(
    alloc: Global,
    text: &[u8],
    columns: &[ColumnDecl],
    catalog: &Catalog,
) -> Result<List<Row>, RowsFault>
    requires below_4_gib { length text.now < 2 ^ 32 }
    requires lawful { All (λ column. IsLawfulType (length catalog.now.collations) column.ty)
        columns.now }
    ensures utf8 { OnOk result (IsUtf8 text.now) }
    ensures loaded { IfOk result (λ rows.
        AreLoaded catalog.now.collations columns.now (records_of text.now) rows) }
    ensures refused { IfErr result (λ fault.
        IsRefused catalog.now.collations columns.now text.now fault.kind fault.at) }
{
    if let Some(valid) = valid_prefix(text) {
        return Err(RowsFault {
            kind: RowsFaultKind::NotUtf8,
            at: valid as u64,
        });
    }
    let mut rows = List::new(alloc);
    match read_records(alloc, text, columns, catalog, &mut rows) {
        Ok(()) => Ok(rows),
        Err(fault) => {
            drop(rows);
            Err(fault)
        }
    }
}

/// Appends the rows of all records to a list without any.
fn read_records(
    alloc: Global,
    text: &[u8],
    columns: &[ColumnDecl],
    catalog: &Catalog,
    rows: &mut List<Row>,
) -> Result<(), RowsFault>
    requires empty { rows.old ≡ [] }
    requires utf8 { IsUtf8 text.now }
    requires below_4_gib { length text.now < 2 ^ 32 }
    requires lawful { All (λ column. IsLawfulType (length catalog.now.collations) column.ty)
        columns.now }
    ensures loaded { OnOk result
        (AreLoaded catalog.now.collations columns.now (records_of text.now) rows.new) }
    ensures refused { IfErr result (λ fault.
        IsRefused catalog.now.collations columns.now text.now fault.kind fault.at) }
{
    rows.reserve(line_count(text).min(MOST_ROWS))?;
    let mut reader = ReaderBuilder::new()
        .has_headers(false)
        .flexible(true)
        .from_reader(alloc, text);
    read_each(alloc, text, columns, catalog, &mut reader, rows)
}

/// Appends the row of each record that a reader of the text gives, from its start.
fn read_each(
    alloc: Global,
    text: &[u8],
    columns: &[ColumnDecl],
    catalog: &Catalog,
    reader: &mut Reader<&[u8]>,
    rows: &mut List<Row>,
) -> Result<(), RowsFault>
    requires empty { rows.old ≡ [] }
    requires utf8 { IsUtf8 text.now }
    requires below_4_gib { length text.now < 2 ^ 32 }
    requires lawful { All (λ column. IsLawfulType (length catalog.now.collations) column.ty)
        columns.now }
    requires untrimmed { reader_trim reader.old ≡ trim.None }
    requires is_ready { Ready reader.old }
    requires configured { reader_config reader.old ≡ default_config }
    requires source { source_of (λ s. Some s.now) reader.old ≡ Some (strip_bom text.now) }
    requires state { reader_state reader.old ≡ st.StartRecord }
    ensures loaded { OnOk result
        (AreLoaded catalog.now.collations columns.now (records_of text.now) rows.new) }
    ensures refused { IfErr result (λ fault.
        IsRefused catalog.now.collations columns.now text.now fault.kind fault.at) }
{
    let _len = text.len();
    let mut line = ByteRecord::new(alloc);
    loop {
        match reader.read_byte_record(&mut line) {
            Ok(true) => match add_row(alloc, columns, catalog, &line, rows) {
                Ok(()) => {}
                Err(fault) => return Err(fault),
            },
            Ok(false) => return Ok(()),
            Err(_) => return Err(RowsFault::from(NoMemory)),
        }
    }
}

/// About how many records the text has.
fn line_count(text: &[u8]) -> usize {
    let mut count: usize = 1;
    for byte in text {
        count = count.saturating_add(usize::from(*byte == b'\n'));
    }
    count
}

/// Appends the row of a record, whose fields are UTF-8.
fn add_row(
    alloc: Global,
    columns: &[ColumnDecl],
    catalog: &Catalog,
    line: &ByteRecord,
    rows: &mut List<Row>,
) -> Result<(), RowsFault>
    requires lawful { All (λ column. IsLawfulType (length catalog.now.collations) column.ty)
        columns.now }
    requires texts { AreTexts (fields_of line.now) }
    requires few { length rows.old ≤ most_rows }
    ensures added { OnOk result
        (IsAdded catalog.now.collations columns.now (fields_of line.now) rows.old rows.new) }
    ensures told { IfErr result (λ fault.
        IsTold catalog.now.collations columns.now (length rows.old) (fields_of line.now) fault) }
{
    let number = rows.len() as u64 + 1;
    if rows.len() >= MOST_ROWS {
        return Err(RowsFault::at_record(RowsFaultKind::TooManyRows, number));
    }
    match read_row(alloc, catalog, columns, line) {
        Ok(row) => {
            rows.push(row)?;
            Ok(())
        }
        Err(kind) => Err(RowsFault::at_record(kind, number)),
    }
}
