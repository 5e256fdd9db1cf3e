ghost use Rattle.mc_catalog.specs.Fits.{FitsCatalog};
ghost use Rattle.mc_catalog.specs.Lawful.{IsLawful};
ghost use Rattle.mc_gather.specs.Indexed.{FitBook, index_fetches};
ghost use Rattle.mc_gather.specs.PlanLaws.{held_at};
ghost use Rattle.mc_gather.specs.Tables.{AreTablesOf};
ghost use Rattle.std.specs.Prelude.{
  ◌≡◌,
  ◌≤◌,
  ◌+◌,
  ◌<◌,
  IfOk,
  Some,
  length,
  option_map,
  slice_get,
};

use mc_base::{List, NoMemory, Steps};
use mc_catalog::Catalog;
use mc_gather::{build_indexes, held};
use mc_index::Index;
use mc_order::Book;
use mc_rows::Table;
use std::alloc::Global;
use std::marker::Model;

/// The tables of a catalog with their rows and their indexes, which contracts see as the catalog
/// and a list of rows and one of indexes for each table. `L` marks the counter that counts when a
/// row is fetched. An index holds keys and numbers of rows, so rows are reached by fetching alone.
#[derive(Drop)]
pub struct Tables<L> {
    catalog: Catalog,
    rows: List<Table<L>>,
    indexes: List<List<Index>>,
}

impl<L> Model for Tables<L> {
    ghost use Rattle.mc_exec.specs.Stored.{Stored};
    ghost use Rattle.mc_gather.specs.Tables.{AreTablesOf};

    ghost Value = { Stored };

    ghost view = { λ tables. record {
      catalog = tables.catalog;
      rows = tables.rows;
      indexes = tables.indexes;
    } };

    ghost invariant = { λ tables. AreTablesOf tables.catalog tables.rows };
}

impl<L> Tables<L> {
    /// The catalog that declares them.
    pub fn catalog(&self) -> &Catalog
        ensures { result.now ≡ self.now.catalog }
    {
        &self.catalog
    }

    /// The table at a place of the catalog.
    #[tactic(auto, using(crate::proofs::Readable::as_many))]
    pub(crate) fn table(&self, place: u32) -> &Table<L>
        requires { place < length self.now.catalog.tables }
        ensures { slice_get self.now.rows place ≡ Some result.now }
    {
        table_at(self.rows.as_slice(), place)
    }

    /// The rows are those of the catalog's tables.
    pub(crate) fn rows_law(&self)
        ensures { AreTablesOf self.now.catalog self.now.rows }
    {
        let _ = &self.rows;
    }

    /// The index at a place of a table, which is at a place of the catalog.
    pub(crate) fn index(&self, place: u32, index: u32) -> Option<&Index>
        ensures { option_map (λ it. it.now) result ≡ held_at self.now.indexes place index }
    {
        held(&self.indexes, place, index)
    }
}

/// The table at a place.
fn table_at<L>(rows: &[Table<L>], place: u32) -> &Table<L>
    requires { place < length rows.now }
    ensures { slice_get rows.now place ≡ Some result.now }
{
    &rows[place as usize]
}

/// The tables of a catalog with these rows, and with an index over them for each that the catalog
/// declares, by the book's collations. Each row is fetched once for each index of its table.
/// `NoMemory` where memory runs out. MySQL 8.0 manual, 8.3.1.
pub fn build_tables<B: Book, L>(
    alloc: Global,
    c: Catalog,
    rows: List<Table<L>>,
    book: &B,
    steps: &mut Steps<L>,
) -> Result<Tables<L>, NoMemory>
    requires tables { AreTablesOf c rows }
    requires lawful { IsLawful c }
    requires fits { FitsCatalog c (B.count book.now) (λ id. (B.meaning book.now id).charset) }
    ensures tables { IfOk result (λ tables. (tables.catalog ≡ c) × (tables.rows ≡ rows)) }
    ensures book { IfOk result
        (λ tables. FitBook c (B.meaning book.now) rows tables.indexes) }
    ensures fetched { steps.old ≤ steps.new }
    ensures steps { steps.new ≤ steps.old + index_fetches c rows }
{
    match build_indexes(alloc, &c, &rows, book, steps) {
        Ok(indexes) => Ok(Tables {
            catalog: c,
            rows,
            indexes,
        }),
        Err(error) => {
            drop(rows);
            drop(c);
            Err(error)
        }
    }
}
