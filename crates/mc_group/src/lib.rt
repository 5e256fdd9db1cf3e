//! Sorting and grouping rows by keys, and the aggregates MIN, MAX and SUM: MySQL 8.0 manual,
//! 13.2.10 and 12.20.
//!
//! A key row has a value of each kind, or NULL in its place: numbers compare as numbers, texts as
//! their weights by a collation. `specs/Order.antt` has the order of rows, `specs/Groups.antt` what
//! rows form a group, `specs/Extremes.antt` and `specs/Sums.antt` the aggregates.
//!
//! `order_rows(Global, &keys, &kinds, &desc, &book)` gives the places of the rows in order. What a
//! row is sorted by is made once.
//!
//! `group_rows` gives the number of each row's group, in one pass over the rows.
//!
//! Read the modules in this order: `kind`; `column`, `cell`, `front`, `entry`, `order`; `frames`,
//! `grouping`; `values`, `extremes`; `sums`; and `laws`, which other crates prove with.
#![tactic(auto)]

mod cell;
mod column;
mod entry;
mod extremes;
mod frames;
mod front;
mod grouping;
mod kind;
mod laws;
mod order;
mod sums;
mod values;

pub use extremes::{greatest, least};
pub use grouping::group_rows;
pub use kind::KeyKind;
pub use laws::{group_laws, place_law};
pub use order::order_rows;
pub use sums::{SumFault, sum};
