ghost use Rattle.mc_catalog.specs.Fits.{FitsCatalog};
ghost use Rattle.mc_catalog.specs.Lawful.{IsLawful};
ghost use Rattle.mc_gather.specs.Building.{
  AreBuilt,
  HasIndexesAt,
  HasTexts,
  IsReady,
  IsTextIn,
  fetches_at,
};
ghost use Rattle.mc_plan.specs.Entries.{value_at};
ghost use Rattle.mc_gather.specs.Indexed.{
  AreIndexesOf,
  FitBook,
  IsIndexOf,
  entry_of,
  gathered,
  index_fetches,
  text_of,
};
ghost use Rattle.mc_plan.specs.Plans.{index_collation};
ghost use Rattle.mc_gather.specs.Tables.{AreTablesOf, HaveIndexes};
ghost use Rattle.mc_index.specs.Entries.{IsSealed, rows_of};
ghost use Rattle.std.specs.Option.{option_to_list};
ghost use Rattle.std.specs.Prelude.{
  ◌≡◌,
  ◌≢◌,
  ◌≤◌,
  ◌<◌,
  ◌+◌,
  ◌*◌,
  ◌++◌,
  [],
  All,
  IfOk,
  IfSome,
  OnOk,
  Some,
  length,
  option_map,
  slice_get,
};

use mc_base::{List, NoMemory, Steps, Text};
use mc_catalog::{Catalog, ColumnDecl, IndexDecl, TableDecl};
use mc_index::{Index, IndexBuilder};
use mc_key::make_key;
use mc_order::{Book, Collation, Pad};
use mc_plan::index_collation;
use mc_rows::Table;
use mc_values::{Row, Value};
use std::alloc::Global;

/// The text that a value is, if it is one.
fn text_of(value: &Value) -> Option<&Text>
    ensures { option_map (λ text. text.now) result ≡ text_of value.now }
{
    match value {
        Value::Str { text, .. } => Some(text),
        Value::Null | Value::Int(_) => None,
    }
}

/// The text that the value at a place of a row is, if it is one.
fn text_in(row: &Row, place: u32) -> Option<&Text>
    ensures { option_map (λ text. text.now) result ≡ text_of (value_at row.now place) }
{
    text_of(row.as_slice().get(place as usize)?)
}

/// Adds the entry of the row of this number, if its value in the index's column is a text.
fn add_entry<C: Collation>(
    alloc: Global,
    collation: &C,
    index: &IndexDecl,
    number: u32,
    row: &Row,
    builder: &mut IndexBuilder,
) -> Result<(), NoMemory>
    requires pad { builder.old.pad ≡ (C.meaning collation.now).pad }
    requires space { builder.old.space ≡ (C.meaning collation.now).space }
    requires text { IsTextIn (C.meaning collation.now).charset
        (value_at row.now index.now.column) }
    requires other { All (λ other. number ≢ other) (rows_of builder.old.entries) }
    ensures pad { builder.new.pad ≡ builder.old.pad }
    ensures space { builder.new.space ≡ builder.old.space }
    ensures added { OnOk result (builder.new.entries ≡ builder.old.entries
        ++ option_to_list (entry_of (C.meaning collation.now) index.now number row.now)) }
{
    match text_in(row, index.column) {
        Some(text) => {
            let key = make_key(alloc, collation, text.as_slice(), index.prefix)?;
            builder.add(number, key)
        }
        None => Ok(()),
    }
}

/// Adds the entries of a table's rows to a builder without any. Each row is fetched at most once.
fn add_entries<C: Collation, L>(
    alloc: Global,
    collation: &C,
    index: &IndexDecl,
    table: &Table<L>,
    steps: &mut Steps<L>,
    builder: &mut IndexBuilder,
) -> Result<(), NoMemory>
    requires texts { HasTexts (C.meaning collation.now).charset index.now table.now }
    requires none { builder.old ≡ gathered (C.meaning collation.now) index.now [] }
    ensures added { OnOk result
        (builder.new ≡ gathered (C.meaning collation.now) index.now table.now) }
    ensures fetched { steps.old ≤ steps.new }
    ensures steps { steps.new ≤ steps.old + length table.now }
{
    for i in 0..table.len() {
        add_entry(alloc, collation, index, i, table.fetch(i, steps), builder)?;
    }
    Ok(())
}

/// The index of a table's rows by a collation.
fn index_by<C: Collation, L>(
    alloc: Global,
    collation: &C,
    index: &IndexDecl,
    table: &Table<L>,
    steps: &mut Steps<L>,
) -> Result<Index, NoMemory>
    requires { HasTexts (C.meaning collation.now).charset index.now table.now }
    ensures is { IfOk result
        (IsSealed (gathered (C.meaning collation.now) index.now table.now)) }
    ensures fetched { steps.old ≤ steps.new }
    ensures steps { steps.new ≤ steps.old + length table.now }
{
    let mut builder = IndexBuilder::new(alloc, collation.pad(), collation.space());
    match add_entries(alloc, collation, index, table, steps, &mut builder) {
        Ok(()) => builder.seal(),
        Err(error) => {
            drop(builder);
            Err(error)
        }
    }
}

/// The index of a table's rows that is declared. Of a column without a collation it has no entries.
fn index_of<B: Book, L>(
    alloc: Global,
    columns: &[ColumnDecl],
    index: &IndexDecl,
    table: &Table<L>,
    book: &B,
    steps: &mut Steps<L>,
) -> Result<Index, NoMemory>
    requires in_book { IfSome (index_collation columns.now index.now)
        (λ coll. coll.0 < B.count book.now) }
    requires texts { IfSome (index_collation columns.now index.now)
        (λ coll. HasTexts (B.meaning book.now coll.0).charset index.now table.now) }
    ensures is { IfOk result (IsIndexOf (B.meaning book.now) columns.now table.now index.now) }
    ensures fetched { steps.old ≤ steps.new }
    ensures steps { steps.new ≤ steps.old + length table.now }
{
    match index_collation(columns, index) {
        Some(coll) => index_by(alloc, book.by_id(coll), index, table, steps),
        None => IndexBuilder::new(alloc, Pad::NoPad, 0).seal(),
    }
}

/// Appends the indexes of a table's rows to a list without any, in the catalog's order.
fn put_indexes<B: Book, L>(
    alloc: Global,
    declared: &TableDecl,
    table: &Table<L>,
    book: &B,
    steps: &mut Steps<L>,
    held: &mut List<Index>,
) -> Result<(), NoMemory>
    requires ready { All (IsReady (B.count book.now) (B.meaning book.now) declared.now.columns
        table.now) declared.now.indexes }
    requires none { held.old ≡ [] }
    ensures are { OnOk result
        (AreIndexesOf (B.meaning book.now) table.now declared.now held.new) }
    ensures fetched { steps.old ≤ steps.new }
    ensures steps { steps.new
        ≤ steps.old + length declared.now.indexes * length table.now }
{
    for index in declared.indexes.as_slice() {
        held.push(index_of(
            alloc,
            declared.columns.as_slice(),
            index,
            table,
            book,
            steps,
        )?)?;
    }
    Ok(())
}

/// The declaration of the table at a place.
fn declared_at(c: &Catalog, place: usize) -> &TableDecl
    requires { place < length c.now.tables }
    ensures { slice_get c.now.tables place ≡ Some result.now }
{
    &c.tables.as_slice()[place]
}

/// The rows of the table at a place.
fn rows_at<L>(rows: &[Table<L>], place: usize) -> &Table<L>
    requires { place < length rows.now }
    ensures { slice_get rows.now place ≡ Some result.now }
{
    &rows[place]
}

/// The indexes of the table at a place, in the catalog's order.
fn indexes_of<B: Book, L>(
    alloc: Global,
    c: &Catalog,
    rows: &[Table<L>],
    place: usize,
    book: &B,
    steps: &mut Steps<L>,
) -> Result<List<Index>, NoMemory>
    requires lawful { IsLawful c.now }
    requires fits { FitsCatalog c.now (B.count book.now)
        (λ id. (B.meaning book.now id).charset) }
    requires tables { AreTablesOf c.now rows.now }
    requires place { place < length c.now.tables }
    ensures are { IfOk result (HasIndexesAt (B.meaning book.now) c.now rows.now place) }
    ensures fetched { steps.old ≤ steps.new }
    ensures steps { steps.new ≤ steps.old + fetches_at c.now rows.now place }
{
    let mut held = List::new(alloc);
    let declared = declared_at(c, place);
    match put_indexes(
        alloc,
        declared,
        rows_at(rows, place),
        book,
        steps,
        &mut held,
    ) {
        Ok(()) => Ok(held),
        Err(error) => {
            drop(held);
            Err(error)
        }
    }
}

/// Appends the indexes of each table to a list without any, in the catalog's order.
fn put_all_indexes<B: Book, L>(
    alloc: Global,
    c: &Catalog,
    rows: &[Table<L>],
    book: &B,
    steps: &mut Steps<L>,
    held: &mut List<List<Index>>,
) -> Result<(), NoMemory>
    requires lawful { IsLawful c.now }
    requires fits { FitsCatalog c.now (B.count book.now)
        (λ id. (B.meaning book.now id).charset) }
    requires tables { AreTablesOf c.now rows.now }
    requires none { held.old ≡ [] }
    ensures are { OnOk result
        (AreBuilt (B.meaning book.now) c.now rows.now (length c.now.tables) held.new) }
    ensures fetched { steps.old ≤ steps.new }
    ensures steps { steps.new ≤ steps.old + index_fetches c.now rows.now }
{
    for place in 0..c.tables.len() {
        held.push(indexes_of(alloc, c, rows, place, book, steps)?)?;
    }
    Ok(())
}

/// The indexes of each table of a catalog over its rows, by the book's collations. Each row is
/// fetched at most once for each index of its table. MySQL 8.0 manual, 8.3.1.
pub fn build_indexes<B: Book, L>(
    alloc: Global,
    c: &Catalog,
    rows: &List<Table<L>>,
    book: &B,
    steps: &mut Steps<L>,
) -> Result<List<List<Index>>, NoMemory>
    requires lawful { IsLawful c.now }
    requires fits { FitsCatalog c.now (B.count book.now)
        (λ id. (B.meaning book.now id).charset) }
    requires tables { AreTablesOf c.now rows.now }
    ensures have { IfOk result (HaveIndexes c.now) }
    ensures fit { IfOk result (FitBook c.now (B.meaning book.now) rows.now) }
    ensures fetched { steps.old ≤ steps.new }
    ensures steps { steps.new ≤ steps.old + index_fetches c.now rows.now }
{
    let mut indexes = List::new(alloc);
    match put_all_indexes(alloc, c, rows.as_slice(), book, steps, &mut indexes) {
        Ok(()) => Ok(indexes),
        Err(error) => {
            drop(indexes);
            Err(error)
        }
    }
}
