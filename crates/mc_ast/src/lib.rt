//! The trees of the statements: what a reading of the tokens means.
//!
//! [`Statement`] and [`Expr`] are the trees. `Meaning` of `specs/` says what each alternative of
//! the grammar of `mc_sql` means, and `Trees` which tree a list of tokens has. Two laws say that
//! this is a function: [`trees_are_unique`], a list of tokens has at most one tree, spans included,
//! and [`readings_have_trees`], it has one where the grammar reads it.
//!
//! Read `operators`, `expr`, `statement` and `trees`; `alike` says when two trees differ
//! in spans alone, and `examples` has laws that show trees of short token lists.
#![tactic(auto)]

mod alike;
mod examples;
mod expr;
mod operators;
mod statement;
mod texts;
mod trees;

pub use alike::likeness_ignores_spans;
pub use examples::{calls, clauses, literals_and_names, operators_group};
pub use expr::{Expr, Form};
pub use operators::{ArithOp, CmpOp, Cut, TrimSide};
pub use statement::{Item, OrderItem, Statement};
pub use texts::texts_law;
pub use trees::{readings_have_trees, trees_are_unique};
