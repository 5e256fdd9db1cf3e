ghost use Rattle.mc_catalog.specs.Lawful.{IsLawful};
ghost use Rattle.mc_gather.specs.Tables.{AreTablesOf};
ghost use Rattle.std.specs.Prelude.{◌<◌, ◌^◌, IfSome, length};

use mc_base::{List, MemFiles, NoMemory, Text};
use mc_catalog::Catalog;
use mc_rows::{Table, load_rows};
use std::alloc::Global;

/// What a counter counts here.
#[derive(Drop)]
pub(crate) struct Fetched;

/// A table of names and codes, with an index of the names and one of the codes' first two
/// characters.
pub(crate) const CATALOG: &[u8] = b"collation utf8mb4_general_ci utf8mb4 general letters.txt
table people people.csv
column name varchar 9 utf8mb4_general_ci
column number bigint
column code varchar 9 latin1_bin
index by_name name
index by_code code 2
";

/// Its rows: three names that are equal, two others that are, one alone, and a NULL in each index.
pub(crate) const ROWS: &[u8] = b"b,1,abc
A,2,\\N
\\N,3,abd
a,4,b
c,5,ab
B,6,abc
a,7,xyz
";

/// The file of the names' collation, where a letter weighs the same in both cases.
pub(crate) fn collation_files(alloc: Global) -> Result<MemFiles, NoMemory> {
    let name = Text::from_slice(alloc, b"letters.txt")?;
    let weights = Text::from_slice(alloc, b"0061..007A @ 0041\n")?;
    let mut files = List::new(alloc);
    files.push((name, weights))?;
    Ok(MemFiles::new(files, List::new(alloc)))
}

/// The rows of a catalog's only table.
pub(crate) fn stored_rows(alloc: Global, c: &Catalog, text: &[u8]) -> Option<List<Table<Fetched>>>
    requires lawful { IsLawful c.now }
    requires short { length text.now < 2 ^ 32 }
    ensures { IfSome result (AreTablesOf c.now) }
{
    if c.tables.len() != 1 {
        return None;
    }
    let Ok(table) = load_rows(alloc, text, &c.tables.as_slice()[0], c) else {
        return None;
    };
    let mut rows = List::new(alloc);
    match rows.push(table) {
        Ok(()) => Some(rows),
        Err(_) => None,
    }
}
