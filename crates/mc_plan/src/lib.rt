//! The plan of a statement: the index by which its rows are found, or none. MySQL 8.0 manual,
//! 8.2.1.2 and 8.8.1.
//!
//! A conjunct of WHERE that compares a column with constants by the column's collation is a
//! condition on the column (`specs/Conds`, with the constants of `specs/Constants`). The plan is
//! the first index in which such a condition names intervals (`specs/Plans`), and it reads the rows
//! that the index has there (`specs/Entries`). `specs/Rejects` says why these rows are enough.
//!
//! Read the modules in this order: `constants`, `conditions`, `columns`, `plan`, `choice`; `laws`,
//! which other crates prove with.
//!
//! `choose(alloc, &typed, &catalog, &book)` is the plan of a typed statement.
#![tactic(auto)]

mod choice;
mod columns;
mod conditions;
mod constants;
mod laws;
mod plan;

pub use choice::choose;
pub use columns::index_collation;
pub use conditions::cond_of;
pub use laws::condition_law;
pub use plan::Plan;
