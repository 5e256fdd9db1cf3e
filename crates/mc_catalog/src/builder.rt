ghost use Rattle.std.specs.Prelude.{
  ◌≡◌,
  ◌<◌,
  ◌^◌,
  [],
  ◌∷◌,
  ◌++◌,
  length,
  false,
  IfSome,
  IfOk,
  IfErr,
  OnOk,
};
ghost use Rattle.std.specs.List.{list_any};
ghost use Rattle.std.specs.Str.{bytes_eq};
ghost use Rattle.std.specs.Option.{option_and_then, option_to_list};
ghost use Rattle.mc_catalog.specs.Progress.{
  nothing_said,
  tables_of,
  declared_of,
  id_of,
  with_column,
  with_index,
  with_entry,
  with_line,
  catalog_of,
};
ghost use Rattle.mc_catalog.specs.Lawful.{IsLawfulSoFar};
ghost use Rattle.mc_catalog.specs.Entries.{entry_of};
ghost use Rattle.mc_catalog.specs.CatalogFaults.{
  first_of,
  collation_tests,
  connection_tests,
  table_tests,
  column_tests,
  index_tests,
  tests_in,
  tests_of,
  kind_of_fault,
  bare_place,
  IsCausedBy,
  IsEndFault,
};

use crate::catalog::{Catalog, CollDecl, Kind, TableDecl};
use crate::entry::{ColumnForm, Entry};
use crate::fault::{CatalogFault, CatalogFaultKind};
use crate::forms::read_entry;
use crate::named::Named;
use crate::open_table::{OpenTable, id_of};
use crate::plain::built_in_collations;
use mc_base::{List, NoMemory, Text};
use mc_charset::{Charset, CollId};
use std::alloc::Global;
use std::marker::Model;

/// The greatest number of collations: the nine built-in ones and 64 declared ones.
const COLLATIONS: usize = 73;

/// The greatest number of tables.
const TABLES: usize = 16;

/// Gathers what the lines of a catalog say. The last table is open for columns and indexes.
#[derive(Drop)]
pub(crate) struct CatalogBuilder {
    collations: Named<CollDecl>,
    earlier: Named<TableDecl>,
    last: Option<OpenTable>,
    connection: Option<CollId>,
    table_lines: List<u32>,
}

impl Model for CatalogBuilder {
    ghost use Rattle.mc_catalog.specs.Progress.{Progress, IsInStep};

    ghost Value = { Progress };

    ghost view = { λ builder. record {
      collations = builder.collations;
      earlier = builder.earlier;
      last = builder.last;
      connection = builder.connection;
      table_lines = builder.table_lines;
    } };

    ghost invariant = { λ builder. IsInStep builder.earlier builder.last builder.table_lines };
}

impl CatalogBuilder {
    /// What no lines say: the built-in collations.
    pub(crate) fn new(alloc: Global) -> Result<CatalogBuilder, NoMemory>
        ensures { IfOk result (λ builder. builder ≡ nothing_said) }
    {
        Ok(CatalogBuilder {
            collations: Named::from_list(alloc, built_in_collations(alloc)?)?,
            earlier: Named::new(alloc),
            last: None,
            connection: None,
            table_lines: List::new(alloc),
        })
    }

    /// Adds what a line says, by its number and its body.
    #[tactic(auto, unfolding(crate::specs::Progress::with_line))]
    pub(crate) fn add_line(
        &mut self,
        alloc: Global,
        number: u32,
        body: &[u8],
    ) -> Result<(), CatalogFaultKind>
        requires { IsLawfulSoFar (catalog_of self.old) }
        ensures ok { OnOk result (kind_of_fault self.old (entry_of body.now) ≡ None) }
        ensures added { OnOk result (self.new ≡ with_line self.old (number, body.now)) }
        ensures lawful { OnOk result (IsLawfulSoFar (catalog_of self.new)) }
        ensures err { IfErr result (λ kind. IsCausedBy kind
            (kind_of_fault self.old (entry_of body.now))) }
    {
        match read_entry(alloc, body)? {
            Some(entry) => self.add_entry(alloc, number, entry),
            None => Err(CatalogFaultKind::BadLine),
        }
    }

    /// Adds an entry of the line of this number.
    #[tactic(auto, unfolding(crate::specs::Progress::with_entry), using(crate::proofs::LawfulSteps::last_is_small))]
    fn add_entry(
        &mut self,
        alloc: Global,
        number: u32,
        entry: Entry,
    ) -> Result<(), CatalogFaultKind>
        requires { IsLawfulSoFar (catalog_of self.old) }
        ensures ok { OnOk result (first_of (tests_of self.old entry) ≡ None) }
        ensures added { OnOk result (self.new ≡ with_entry number self.old entry) }
        ensures err { IfErr result (λ kind. IsCausedBy kind (first_of (tests_of self.old entry))) }
    {
        match entry {
            Entry::Collation {
                name,
                set,
                kind,
                file,
                rules,
            } => self.add_collation(alloc, name, set, kind, file, rules),
            Entry::Connection { name } => self.set_connection(name),
            Entry::Table { name, file } => self.add_table(alloc, number, name, file),
            Entry::Column { name, form } => self.add_column(alloc, name, form),
            Entry::Index {
                name,
                column,
                prefix,
            } => self.add_index(alloc, name, column, prefix),
        }
    }

    /// Adds a collation.
    #[tactic(auto, unfolding(crate::specs::Progress::declared_of))]
    fn add_collation(
        &mut self,
        alloc: Global,
        name: Text,
        set: Option<Charset>,
        kind: Option<Kind>,
        file: Text,
        rules: Option<Text>,
    ) -> Result<(), CatalogFaultKind>
        ensures ok { OnOk result (first_of (collation_tests self.old.collations name set kind)
            ≡ None) }
        ensures added { OnOk result (self.new ≡ record self.old {
          collations = self.old.collations ++ option_to_list (declared_of name set kind file rules);
        }) }
        ensures err { IfErr result (λ fault. IsCausedBy fault
            (first_of (collation_tests self.old.collations name set kind))) }
    {
        match self.set_and_kind(name.as_slice(), set, kind) {
            Ok((charset, kind)) => {
                let declared = CollDecl {
                    name,
                    charset,
                    kind,
                    file,
                    rules,
                };
                self.collations.push(alloc, declared)?;
                Ok(())
            }
            Err(fault) => Err(fault),
        }
    }

    /// The set and the kind of a collation of this name, where one can be added.
    fn set_and_kind(
        &self,
        name: &[u8],
        set: Option<Charset>,
        kind: Option<Kind>,
    ) -> Result<(Charset, Kind), CatalogFaultKind>
        ensures ok { OnOk result (first_of (collation_tests self.now.collations name.now set kind)
            ≡ None) }
        ensures value { IfOk result (λ known. (set ≡ Some known.0) × (kind ≡ Some known.1)) }
        ensures err { IfErr result (λ fault. IsCausedBy fault
            (first_of (collation_tests self.now.collations name.now set kind))) }
    {
        let Some(charset) = set else {
            return Err(CatalogFaultKind::UnknownCharset);
        };
        let Some(kind) = kind else {
            return Err(CatalogFaultKind::UnknownKind);
        };
        if !kind.suits(charset) {
            return Err(CatalogFaultKind::WrongCharset);
        }
        if self.collations.has(name) {
            return Err(CatalogFaultKind::Repeated);
        }
        if self.collations.as_slice().len() >= COLLATIONS {
            return Err(CatalogFaultKind::TooMany);
        }
        Ok((charset, kind))
    }

    /// Sets the connection collation.
    fn set_connection(&mut self, name: Text) -> Result<(), CatalogFaultKind>
        requires { length self.old.collations < 2 ^ 32 }
        ensures ok { OnOk result (first_of (connection_tests self.old.collations name
            self.old.connection) ≡ None) }
        ensures added { OnOk result (self.new ≡ record self.old
            { connection = id_of self.old.collations name }) }
        ensures err { IfErr result (λ fault. IsCausedBy fault
            (first_of (connection_tests self.old.collations name self.old.connection))) }
    {
        let Some(id) = id_of(&self.collations, name.as_slice()) else {
            return Err(CatalogFaultKind::UnknownCollation);
        };
        if self.connection.is_some() {
            return Err(CatalogFaultKind::Repeated);
        }
        self.connection = Some(id);
        Ok(())
    }

    /// Begins a table, at the line of this number.
    fn add_table(
        &mut self,
        alloc: Global,
        number: u32,
        name: Text,
        file: Text,
    ) -> Result<(), CatalogFaultKind>
        ensures ok { OnOk result (first_of (table_tests (tables_of self.old) name) ≡ None) }
        ensures added { OnOk result (self.new ≡ record self.old {
          earlier = tables_of self.old;
          last = Some (record { name = name; file = file; columns = []; indexes = [] });
          table_lines = self.old.table_lines ++ number ∷ [];
        }) }
        ensures err { IfErr result (λ fault. IsCausedBy fault
            (first_of (table_tests (tables_of self.old) name))) }
    {
        match self.begin_table(alloc, number, name.as_slice()) {
            Ok(()) => {
                self.last.insert(OpenTable::new(alloc, name, file));
                Ok(())
            }
            Err(fault) => Err(fault),
        }
    }

    /// Ends the last table, and notes the line of the next one, where one of this name can be
    /// added.
    fn begin_table(
        &mut self,
        alloc: Global,
        number: u32,
        name: &[u8],
    ) -> Result<(), CatalogFaultKind>
        ensures ok { OnOk result (first_of (table_tests (tables_of self.old) name.now) ≡ None) }
        ensures begun { OnOk result (self.new ≡ record self.old {
          earlier = tables_of self.old;
          last = None;
          table_lines = self.old.table_lines ++ number ∷ [];
        }) }
        ensures lined { OnOk result (length self.new.earlier < length self.new.table_lines) }
        ensures apart { OnOk result (list_any (λ table. bytes_eq table.name name.now)
            self.new.earlier ≡ false) }
        ensures err { IfErr result (λ fault. IsCausedBy fault
            (first_of (table_tests (tables_of self.old) name.now))) }
    {
        self.close_table(alloc)?;
        if self.earlier.has(name) {
            return Err(CatalogFaultKind::Repeated);
        }
        if self.earlier.as_slice().len() >= TABLES {
            return Err(CatalogFaultKind::TooMany);
        }
        self.table_lines.push(number)?;
        Ok(())
    }

    /// Ends the last table, which then is an earlier one.
    fn close_table(&mut self, alloc: Global) -> Result<(), NoMemory>
        ensures { OnOk result (self.new ≡ record self.old
            { earlier = tables_of self.old; last = None }) }
    {
        match self.last.take() {
            Some(table) => {
                self.earlier.push(alloc, table.close())?;
                Ok(())
            }
            None => Ok(()),
        }
    }

    /// Adds a column to the last table.
    fn add_column(
        &mut self,
        alloc: Global,
        name: Text,
        form: ColumnForm,
    ) -> Result<(), CatalogFaultKind>
        requires { length self.old.collations < 2 ^ 32 }
        ensures ok { OnOk result (first_of (tests_in (column_tests self.old.collations name form)
            self.old.last) ≡ None) }
        ensures added { OnOk result (self.new ≡ record self.old {
          last = option_and_then (with_column self.old.collations name form) self.old.last;
        }) }
        ensures err { IfErr result (λ fault. IsCausedBy fault
            (first_of (tests_in (column_tests self.old.collations name form) self.old.last))) }
    {
        let Some(table) = &mut self.last else {
            return Err(CatalogFaultKind::BadLine);
        };
        table.add_column(alloc, &self.collations, name, form)
    }

    /// Adds an index to the last table.
    fn add_index(
        &mut self,
        alloc: Global,
        name: Text,
        column: Text,
        prefix: Option<u32>,
    ) -> Result<(), CatalogFaultKind>
        requires { IfSome self.old.last (λ table. length table.columns < 2 ^ 32) }
        ensures ok { OnOk result (first_of (tests_in (index_tests name column prefix) self.old.last)
            ≡ None) }
        ensures added { OnOk result (self.new ≡ record self.old {
          last = option_and_then (with_index name column prefix) self.old.last;
        }) }
        ensures err { IfErr result (λ fault. IsCausedBy fault
            (first_of (tests_in (index_tests name column prefix) self.old.last))) }
    {
        let Some(table) = &mut self.last else {
            return Err(CatalogFaultKind::BadLine);
        };
        table.add_index(alloc, name, column, prefix)
    }

    /// Ends the last table, or tells the line of the first table without a column.
    pub(crate) fn end(&mut self, alloc: Global) -> Result<(), CatalogFault>
        ensures ok { OnOk result (bare_place (tables_of self.old) ≡ None) }
        ensures ended { OnOk result (self.new ≡ record self.old
            { earlier = tables_of self.old; last = None }) }
        ensures err { IfErr result (λ fault. IsEndFault self.old fault.kind fault.line) }
    {
        self.close_table(alloc)?;
        match bare_place(self.earlier.as_slice()) {
            Some(place) => Err(CatalogFault {
                kind: CatalogFaultKind::NoColumn,
                line: self.table_lines.as_slice()[place],
            }),
            None => Ok(()),
        }
    }

    /// The catalog of all that was said, its last table ended.
    pub(crate) fn into_catalog(self) -> Catalog
        requires { self.last ≡ None }
        ensures { result ≡ catalog_of self }
    {
        let CatalogBuilder {
            collations,
            earlier,
            last,
            connection,
            table_lines,
        } = self;
        drop(last);
        drop(table_lines);
        Catalog {
            collations: collations.into_list(),
            tables: earlier.into_list(),
            connection: connection.unwrap_or(CollId(4)),
        }
    }
}

/// The place of the first table without a column.
fn bare_place(tables: &[TableDecl]) -> Option<usize>
    ensures place { result ≡ bare_place tables.now }
    ensures within { IfSome result (λ i. i < length tables.now) }
{
    tables.iter().position(|table| table.columns.len() == 0)
}
