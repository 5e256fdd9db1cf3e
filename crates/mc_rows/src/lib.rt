//! The rows of a table, read from a file of comma-separated values (RFC 4180, as the `csv` crate
//! reads it), and the only way to look at them.
//!
//! `load_rows(alloc, text, table, catalog)` gives a `Table`, or the first fault of the file:
//! `specs/Records` says which row a record is and which fault it has, `specs/Fields` which value a
//! field is, `specs/Outcome` what the whole text gives. `fetch` lends a row and ticks once.
//! `fit_text` makes a text fit a column, whatever it comes from: `specs/Fit`.
//!
//! Read `fault` and `table`; then `number`, `hex`, `fit` and `field` for a field, `row` for a
//! record, `utf8` for the text of a file, and `load`.
#![tactic(auto)]

mod fault;
mod field;
mod fit;
mod hex;
mod load;
mod number;
mod row;
mod table;
mod utf8;

pub use fault::{RowsFault, RowsFaultKind};
pub use fit::{FitFault, fit_text};
pub use load::load_rows;
pub use table::Table;
