//! The catalog: the collations that are built in or declared, and the tables with their columns and
//! indexes (MySQL 8.0 manual, 10.14, for the collations; the file is this engine's own).
//!
//! `read_catalog(alloc, text)` reads one from a file: `specs/CatalogFaults` says line by line what
//! is accepted and which fault comes first, `specs/Outcome` what the whole text gives.
//! `plain_catalog` has the built-in collations alone. `find_collation` finds one by its name,
//! `collation_set` its set, `default_of` a set's usual one. `specs/Lawful` says what each catalog
//! keeps to, `specs/Fits` when a book of collations fits one.
//!
//! Read `catalog`, `fault` and `look_up`; then `words`, `entry` and `forms` for a line, `names`,
//! `named`, `open_table` and `builder` for the lines together, and `reader`.
#![tactic(auto)]

mod builder;
mod catalog;
mod entry;
mod fault;
mod forms;
mod laws;
mod look_up;
mod named;
mod names;
mod open_table;
mod plain;
mod reader;
mod words;

pub use catalog::{Catalog, CollDecl, ColumnDecl, ColumnType, IndexDecl, Kind, TableDecl};
pub use fault::{CatalogFault, CatalogFaultKind};
pub use laws::outcome_law;
pub use look_up::{collation_set, default_of, find_collation};
pub use plain::plain_catalog;
pub use reader::read_catalog;
