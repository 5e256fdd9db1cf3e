ghost use Rattle.std.specs.Prelude.{◌≡◌, ◌≢◌, [], Err, Ok, All, IfErr, IfOk, OnOk, length};
ghost use Rattle.csv.specs.Records.{fields_of};
ghost use Rattle.mc_catalog.specs.Lawful.{IsLawfulType};
ghost use Rattle.mc_rows.specs.Records.{IsOfColumns, row_of, values_of};
ghost use Rattle.mc_rows.specs.Told.{AreTexts, Gives};
ghost use Rattle.mc_rows.specs.declared.fault.RowsFaultKind.TheVariants.{NoMemory as OutOfMemory};

use crate::fault::RowsFaultKind;
use crate::field::field_value;
use csv::ByteRecord;
use mc_catalog::{Catalog, ColumnDecl};
use mc_values::Row;
use std::alloc::Global;

/// A record, whose fields are UTF-8, as a row.
pub(crate) fn read_row(
    alloc: Global,
    catalog: &Catalog,
    columns: &[ColumnDecl],
    line: &ByteRecord,
) -> Result<Row, RowsFaultKind>
    requires lawful { All (λ column. IsLawfulType (length catalog.now.collations) column.ty)
        columns.now }
    requires texts { AreTexts (fields_of line.now) }
    ensures row { Gives (row_of catalog.now.collations columns.now (fields_of line.now)) result }
    ensures of_columns { IfOk result (λ row.
        IsOfColumns catalog.now.collations columns.now row) }
{
    if line.len() != columns.len() {
        return Err(RowsFaultKind::WrongCount);
    }
    let mut row = Row::new(alloc);
    match push_values(alloc, catalog, columns, line, &mut row) {
        Ok(()) => Ok(row),
        Err(kind) => {
            drop(row);
            Err(kind)
        }
    }
}

/// Appends the values of a record to a row without any; there is a field for each column.
fn push_values(
    alloc: Global,
    catalog: &Catalog,
    columns: &[ColumnDecl],
    line: &ByteRecord,
    row: &mut Row,
) -> Result<(), RowsFaultKind>
    requires empty { row.old ≡ [] }
    requires counted { length (fields_of line.now) ≡ length columns.now }
    requires lawful { All (λ column. IsLawfulType (length catalog.now.collations) column.ty)
        columns.now }
    requires texts { AreTexts (fields_of line.now) }
    ensures values { OnOk result
        (values_of catalog.now.collations columns.now (fields_of line.now) ≡ Ok row.new) }
    ensures fault { IfErr result (λ kind. kind ≢ OutOfMemory
        → values_of catalog.now.collations columns.now (fields_of line.now) ≡ Err kind) }
    ensures of_columns { OnOk result (IsOfColumns catalog.now.collations columns.now row.new) }
{
    row.reserve(columns.len())?;
    for column in columns {
        let Some(field) = line.get(row.len()) else {
            return Err(RowsFaultKind::WrongCount);
        };
        let value = match field_value(alloc, catalog, column.ty, field) {
            Ok(value) => value,
            Err(kind) => return Err(kind),
        };
        row.push(value)?;
    }
    Ok(())
}
