//! Indexes over the rows of tables, and the rows that they have in intervals: MySQL 8.0 manual,
//! 8.2.1.2 and 8.3.1.
//!
//! An index holds an entry for each row whose value in its column is a text (`specs/Indexed`, over
//! the rows of `specs/Tables`). What it has in intervals are rows, each once and in the table's
//! order (`specs/Through`): those that a scan finds there, and no others (`specs/IndexLaws`), and
//! so those that a plan reads (`specs/PlanLaws`).
//!
//! Read the modules in this order: `indexes`, `tables`, `gather`; and `index_laws`, which other
//! crates prove with.
//!
//! `build_indexes(alloc, &catalog, &rows, &book, &mut steps)` has an index for each that the
//! catalog declares.
#![tactic(auto)]

mod gather;
mod index_laws;
mod indexes;
mod tables;

pub use gather::rows_through;
pub use index_laws::{plan_law, space_law, through_law};
pub use indexes::build_indexes;
pub use tables::held;
