//! The grammar of the statements: MySQL 8.0 manual, 13.2.10 (SELECT), 12.4 (operators), 9.1 to 9.3
//! (literals, names, reserved words), as far as the engine has them. In reading order: `Classes`,
//! `Rules` and `Statements` of `specs/`, then [`statements_read_once`]; `Completions`, then
//! [`places_are_completed`]; `Nest`, then [`levels_are_nests`] and [`statements_have_one_answer`].
#![tactic(auto)]

mod completed;
mod exclusive;
mod nest;
mod once;

pub use completed::places_are_completed;
pub use exclusive::statements_have_one_answer;
pub use nest::levels_are_nests;
pub use once::statements_read_once;
