//! Statements over the rows of a catalog's tables: MySQL 8.0 manual, 13.2.10.
//!
//! [`build_tables`] puts rows and the indexes over them beside the catalog that declares their
//! tables, and [`select`] answers a typed statement over them. `specs/FullScan` says which rows it
//! shows: those that `specs/Kept` keeps of the rows of `specs/Source`, in the groups of
//! `specs/Grouped`, each shown as `specs/Shown` says with the aggregates of `specs/Aggregates`, as
//! the values of `specs/Given`, in the order of `specs/Ordered`, within the limit. No index stands
//! there: the statement's plan says only how many rows are fetched (`specs/Planned`). [`explain`]
//! answers the plan (`specs/Explained`). The tables are seen as `specs/Stored`.
//!
//! Read `fault` and `tables`; then `planned` (the rows that a plan reads, by their numbers), `scan`
//! (the rows that are kept, lent), `subject` (what expressions are evaluated in), `keys` (their
//! values), `order`, `shown` (the rows of the answer) and `finished`; `numbers` (the groups of rows
//! of values), `lines` and `distinct`; `collected` (the aggregates of a statement), `counts`,
//! `aggregates`, `groups` and `grouped`; `answers` and `explained`; and `laws`, which other crates
//! prove with.
#![tactic(auto)]

mod aggregates;
mod answers;
mod collected;
mod counts;
mod distinct;
mod explained;
mod fault;
mod finished;
mod grouped;
mod groups;
mod keys;
mod laws;
mod lines;
mod numbers;
mod order;
mod planned;
mod scan;
mod shown;
mod subject;
mod tables;

pub use answers::select;
pub use explained::explain;
pub use fault::ExecFault;
pub use laws::scan_law;
pub use tables::{Tables, build_tables};
