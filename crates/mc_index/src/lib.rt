//! The entries of an index in order, and where the bounds of an interval stand among them: MySQL
//! 8.0 manual, 8.3.1.
//!
//! An entry is what the key of a row keeps, and the row's number (`specs/Entries.antt`). Entries
//! are gathered in any order, sorted once, by their keys' fronts first, and then looked for by
//! halving: `specs/Places.antt` says where a bound stands, and `specs/Digits.antt` how few
//! comparisons that takes. The entries of an interval stand side by side (`specs/Laws.antt`).
//!
//! Read the modules in this order: `side`; `entry`, `sorting`, `builder`, `index`; `halving`; and
//! `laws`, which other crates prove with.
//!
//! `index.seek(&bound, Side::Before, &mut work)` is the place of the first entry that is not below
//! the bound.
#![tactic(auto)]

mod builder;
mod entry;
mod halving;
mod index;
mod laws;
mod side;
mod sorting;

pub use builder::IndexBuilder;
pub use index::Index;
pub use laws::{digits_law, index_law, seal_law};
pub use side::Side;
