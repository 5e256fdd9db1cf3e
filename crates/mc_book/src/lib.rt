//! The collations of a catalog, of every kind, and the book of them that its files give.
//!
//! `AnyCollation` is a collation of one of the kinds: a built-in one of `mc_order`, one by a table
//! of `mc_table8`, or one by a table of elements, of `mc_uca`. `specs/Any.antt` says what each
//! means; it keeps the laws of a collation (`mc_order`) because each kind does:
//! `any.compare(a, b)` is the order of two texts by the kind that `any` has.
//!
//! `build_book(alloc, &catalog, &mut files)` reads the table of each declared collation, in the
//! order of the catalog; `specs/BookOutcome.antt` says what they give, or which one is refused,
//! and `specs/UcaOutcome.antt` what a table of elements gives.
//!
//! Read `any_collation` and `book`; then `fault`, `kinds`, `table`, `elements` and `build`.
#![tactic(auto)]

mod any_collation;
mod book;
mod build;
mod elements;
mod fault;
mod kinds;
mod table;

pub use any_collation::AnyCollation;
pub use book::AnyBook;
pub use build::build_book;
pub use fault::BookFault;
pub use kinds::declares_built_kinds;
