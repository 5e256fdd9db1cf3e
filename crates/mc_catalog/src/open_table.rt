ghost use Rattle.std.specs.Prelude.{◌≡◌, ◌<◌, ◌^◌, [], length, IfOk, IfErr, OnOk, None, Some};
ghost use Rattle.std.specs.Option.{option_and_then};
ghost use Rattle.mc_catalog.specs.Lawful.{width_of};
ghost use Rattle.mc_catalog.specs.Progress.{
  id_of,
  type_of,
  width_at,
  indexed_column,
  with_column,
  with_index,
};
ghost use Rattle.mc_catalog.specs.CatalogFaults.{
  first_of,
  column_tests,
  index_tests,
  indexed_width,
  is_bad_length,
  IsCausedBy,
};

use crate::catalog::{CollDecl, ColumnDecl, ColumnType, IndexDecl, TableDecl};
use crate::entry::ColumnForm;
use crate::fault::CatalogFaultKind;
use crate::named::Named;
use mc_base::Text;
use mc_charset::CollId;
use std::alloc::Global;
use std::marker::Model;

/// The greatest number of columns of a table.
const COLUMNS: usize = 32;

/// The greatest number of indexes of a table.
const INDEXES: usize = 8;

/// A table to which columns and indexes can be added.
#[derive(Drop)]
pub(crate) struct OpenTable {
    name: Text,
    file: Text,
    columns: Named<ColumnDecl>,
    indexes: Named<IndexDecl>,
}

impl Model for OpenTable {
    ghost use Rattle.mc_catalog.specs.declared.catalog.TableDecl.{TableDecl};

    ghost Value = { TableDecl };

    ghost view = { λ table. record {
      name = table.name;
      file = table.file;
      columns = table.columns;
      indexes = table.indexes;
    } };
}

impl OpenTable {
    /// A table without columns and indexes.
    pub(crate) fn new(alloc: Global, name: Text, file: Text) -> OpenTable
        ensures { result ≡ record { name = name; file = file; columns = []; indexes = [] } }
    {
        OpenTable {
            name,
            file,
            columns: Named::new(alloc),
            indexes: Named::new(alloc),
        }
    }

    /// Adds a column.
    #[tactic(auto, unfolding(crate::specs::Progress::with_column))]
    pub(crate) fn add_column(
        &mut self,
        alloc: Global,
        collations: &Named<CollDecl>,
        name: Text,
        form: ColumnForm,
    ) -> Result<(), CatalogFaultKind>
        requires { length collations.now < 2 ^ 32 }
        ensures ok { OnOk result
            (first_of (column_tests collations.now name form self.old) ≡ None) }
        ensures added { OnOk result
            (with_column collations.now name form self.old ≡ Some self.new) }
        ensures err { IfErr result (λ fault. IsCausedBy fault
            (first_of (column_tests collations.now name form self.old))) }
        ensures named { self.new.name ≡ self.old.name }
    {
        let ty = self.column_type(collations, name.as_slice(), &form);
        drop(form);
        match ty {
            Ok(ty) => {
                self.columns.push(alloc, ColumnDecl { name, ty })?;
                Ok(())
            }
            Err(fault) => Err(fault),
        }
    }

    /// The type of a column of this name, where one can be added.
    fn column_type(
        &self,
        collations: &Named<CollDecl>,
        name: &[u8],
        form: &ColumnForm,
    ) -> Result<ColumnType, CatalogFaultKind>
        requires { length collations.now < 2 ^ 32 }
        ensures ok { OnOk result (first_of (column_tests collations.now name.now form.now self.now)
            ≡ None) }
        ensures value { IfOk result (λ ty. type_of collations.now form.now ≡ Some ty) }
        ensures err { IfErr result (λ fault. IsCausedBy fault
            (first_of (column_tests collations.now name.now form.now self.now))) }
    {
        let Some(ty) = type_of(collations, form) else {
            return Err(CatalogFaultKind::UnknownCollation);
        };
        if self.columns.has(name) {
            return Err(CatalogFaultKind::Repeated);
        }
        if self.columns.as_slice().len() >= COLUMNS {
            return Err(CatalogFaultKind::TooMany);
        }
        Ok(ty)
    }

    /// Adds an index.
    #[tactic(auto, unfolding(crate::specs::Progress::with_index))]
    pub(crate) fn add_index(
        &mut self,
        alloc: Global,
        name: Text,
        column: Text,
        prefix: Option<u32>,
    ) -> Result<(), CatalogFaultKind>
        requires { length self.old.columns < 2 ^ 32 }
        ensures ok { OnOk result (first_of (index_tests name column prefix self.old) ≡ None) }
        ensures added { OnOk result (with_index name column prefix self.old ≡ Some self.new) }
        ensures err { IfErr result (λ fault. IsCausedBy fault
            (first_of (index_tests name column prefix self.old))) }
        ensures named { self.new.name ≡ self.old.name }
    {
        match self.indexed_place(name.as_slice(), column.as_slice(), prefix) {
            Ok(place) => {
                let index = IndexDecl {
                    name,
                    column: place as u32,
                    prefix,
                };
                self.indexes.push(alloc, index)?;
                Ok(())
            }
            Err(fault) => Err(fault),
        }
    }

    /// The place of the column of an index of this name, where one can be added.
    #[tactic(auto, unfolding(crate::specs::CatalogFaults::indexed_width, crate::specs::Progress::indexed_column))]
    fn indexed_place(
        &self,
        name: &[u8],
        column: &[u8],
        prefix: Option<u32>,
    ) -> Result<usize, CatalogFaultKind>
        ensures ok { OnOk result
            (first_of (index_tests name.now column.now prefix self.now) ≡ None) }
        ensures value { IfOk result
            (λ place. indexed_column self.now.columns column.now ≡ Some place) }
        ensures within { IfOk result (λ place. place < length self.now.columns) }
        ensures err { IfErr result (λ fault. IsCausedBy fault
            (first_of (index_tests name.now column.now prefix self.now))) }
    {
        let Some(place) = self.columns.place_of(column) else {
            return Err(CatalogFaultKind::UnknownColumn);
        };
        let Some(width) = width_at(self.columns.as_slice(), place) else {
            return Err(CatalogFaultKind::UnknownColumn);
        };
        if is_bad_length(prefix, width) {
            return Err(CatalogFaultKind::BadLength);
        }
        if self.indexes.has(name) {
            return Err(CatalogFaultKind::Repeated);
        }
        if self.indexes.as_slice().len() >= INDEXES {
            return Err(CatalogFaultKind::TooMany);
        }
        Ok(place)
    }

    /// The table as it is.
    pub(crate) fn close(self) -> TableDecl
        ensures { result ≡ self }
    {
        let OpenTable {
            name,
            file,
            columns,
            indexes,
        } = self;
        TableDecl {
            name,
            file,
            columns: columns.into_list(),
            indexes: indexes.into_list(),
        }
    }
}

/// The collation of this name.
pub(crate) fn id_of(collations: &Named<CollDecl>, name: &[u8]) -> Option<CollId>
    requires { length collations.now < 2 ^ 32 }
    ensures { result ≡ id_of collations.now name.now }
{
    match collations.place_of(name) {
        Some(place) => Some(CollId(place as u32)),
        None => None,
    }
}

/// The type of a column, its collation by its number.
#[tactic(auto, unfolding(crate::specs::Progress::type_of))]
pub(crate) fn type_of(collations: &Named<CollDecl>, form: &ColumnForm) -> Option<ColumnType>
    requires { length collations.now < 2 ^ 32 }
    ensures { result ≡ type_of collations.now form.now }
{
    match form {
        ColumnForm::Plain(ty) => Some(*ty),
        ColumnForm::Char { n, collation } => {
            let coll = id_of(collations, collation.as_slice())?;
            Some(ColumnType::Char { n: *n, coll })
        }
        ColumnForm::VarChar { n, collation } => {
            let coll = id_of(collations, collation.as_slice())?;
            Some(ColumnType::VarChar { n: *n, coll })
        }
    }
}

/// The greatest length of the values of the column at a place.
#[tactic(auto, unfolding(crate::specs::Progress::width_at))]
fn width_at(columns: &[ColumnDecl], place: usize) -> Option<u32>
    requires { place < length columns.now }
    ensures { result ≡ width_at columns.now place }
{
    columns[place].ty.width()
}

/// Whether the front that an index covers is empty, or longer than the values can be.
#[tactic(auto, unfolding(crate::specs::CatalogFaults::is_bad_length))]
fn is_bad_length(prefix: Option<u32>, width: u32) -> bool
    ensures { result ≡ is_bad_length prefix (Some width) }
{
    match prefix {
        Some(k) => k == 0 || k > width,
        None => false,
    }
}
