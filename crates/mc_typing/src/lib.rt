//! Types of statements: the set, collation, level of coercibility and repertoire of each text, or
//! the refusal of the first operation that its operands don't suit (MySQL 8.0 manual, 10.8.4; the
//! order of refusals is this engine's own).
//!
//! [`type_statement`] types a statement's tree over a catalog and a [`Session`]. `specs/Statements`
//! says what comes of a whole statement: its table first, then its items, WHERE, GROUP BY and
//! ORDER BY.
//! `specs/Exprs` types a tree by cases: operands before their operation, the first that is refused
//! deciding. `Literals`, `Columns`, `Operators`, `Calls` and `Aggregates` have the cases, `Places`
//! says where columns and aggregates may stand, `Likeness` which trees are alike, `Functions` has
//! the table of functions, `Messages` the texts of refusals.
//!
//! Read `typed` (what is made), `session`, `scope` and `place`; `operands`, then `literals`,
//! `columns`, `operators`, `conversions`, `nodes`, `aggregates` and `calls` over `callee`; `names`,
//! `messages` and `fault` for refusals; `heads`, `likeness` and `places`; `shape`, `leaves`, `made`
//! and `walk`, which types a tree; `grouping`, `items`, `conjuncts`, `groups`, `orders`, `headers`
//! and `statement`; and `laws`, `likeness_law` and `order_law`, which other crates prove with.
#![tactic(auto)]

mod aggregates;
mod callee;
mod calls;
mod columns;
mod conjuncts;
mod conversions;
mod fault;
mod grouping;
mod groups;
mod headers;
mod heads;
mod items;
mod laws;
mod leaves;
mod likeness;
mod likeness_law;
mod literals;
mod made;
mod messages;
mod names;
mod nodes;
mod operands;
mod operators;
mod order_law;
mod orders;
mod place;
mod places;
mod scope;
mod session;
mod shape;
mod statement;
mod strings;
mod typed;
mod walk;

pub use fault::TypeFault;
pub use laws::{sound_law, typing_law};
pub use likeness_law::likeness_up_to_spans;
pub use order_law::order_of_refusals;
pub use session::Session;
pub use statement::type_statement;
pub use typed::{AggName, Func, Node, Ty, Typed, TypedExpr, TypedOrder};
