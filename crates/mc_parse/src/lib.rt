//! The parser: the tree of a list of tokens, or the first token at which the tokens have no
//! reading, or stand too deep.
//!
//! It is a descent by looking ahead, one small function for each rule of the grammar of `mc_sql`:
//! Aho, Lam, Sethi and Ullman, Compilers, 4.4. `place` is where it stands and what it sees there,
//! `fault` where it stops. `operand` and `boxes` make the trees. `operators`, `predicate`,
//! `comparison`, `primary` and `call` read expressions, `clauses` and the `clause_` files
//! those of a `statement`; [`parse`] is the one call. What comes of a list of tokens is
//! stated in `specs/Outcome` and, case by case, in `Parsed` of `mc_ast`; [`outcomes_are_unique`] is
//! the law that it is one thing.
//!
//! The definitions are in `specs/`, in the order of its `Lib.antt`.
#![tactic(auto)]

mod arguments;
mod boxes;
mod call;
mod call_cast;
mod call_convert;
mod call_plain;
mod call_substring;
mod call_trim;
mod call_weight;
mod clause_from;
mod clause_items;
mod clause_limit;
mod clause_order;
mod clauses;
mod comparison;
mod fault;
mod laws;
mod matching;
mod members;
mod opening;
mod operand;
mod operators;
mod parser;
mod place;
mod predicate;
mod primary;
mod statement;
mod strings;

pub use fault::ParseFault;
pub use laws::outcomes_are_unique;
pub use parser::parse;
