//! The order of texts under a collation, and the laws that every collation keeps.
//!
//! A text has lists of weights, and two texts compare as their flat lists do: lexicographically, or
//! as if prolonged by the space's weight without end (MySQL 8.0 manual, 10.8.5). `specs/Order.antt`
//! states that order, `specs/Meaning.antt` what a collation means, `specs/Laws.antt` what each one
//! keeps (its tails by `specs/Tails.antt`, its floor by `specs/Floor.antt`), and
//! `specs/Consequences.antt` what code that is generic in it may rest on.
//!
//! Read `pad`, `lists`, `collation`, `book`; then `stream`, by which each kind compares without a
//! list; `char_weights`, `shared` and `blocks`, by which a kind of one weight a character does;
//! then `bin` and `bin_number`, the nine built-in collations:
//! `BinCollation::new(CollId(4)).compare(a, b)` is the order of two utf8mb4 texts by code points.
//! The smallest kind that has contractions is that of the tests, `toy`.
#![tactic(auto)]

mod bin;
mod bin_number;
mod blocks;
mod book;
mod char_weights;
mod collation;
mod lists;
mod pad;
mod shared;
mod stream;
#[cfg(test)]
mod tests;
#[cfg(test)]
mod toy;
#[cfg(test)]
mod toy_weights;

pub use bin::BinCollation;
pub use blocks::shared_bytes;
pub use book::Book;
pub use char_weights::{CharWeight, compare_chars, put_chars};
pub use collation::{Collation, characters_laws, collation_laws};
pub use lists::{compare_lists, order_laws};
pub use pad::Pad;
pub use shared::shared_start;
pub use stream::{WeightStream, compare_streams, put_first_weights, put_weights};
