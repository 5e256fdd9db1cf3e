//! Grammars as data and their readings: what makes a reading the only one, and what a descent that
//! looks ahead may say of the tokens that it took. In reading order, of `specs/`: `Grammar` and
//! `Reading`; `Ahead` (FIRST and FOLLOW) and `Apart`, then [`readings_are_unique`]; `Language`,
//! `Descent`, `Places` and `Chains`; `Completions`, then [`symbols_are_completed`]; `Nest` and
//! `Room` (a limit of depth), `Goes`, then [`whole_readings_have_values`], [`failures_come_first`],
//! [`ends_come_first`], [`left_tokens_come_first`] and [`depths_come_first`]; `Answers`, then
//! [`answers_exclude_each_other`].
#![tactic(auto)]

mod completed;
mod errors;
mod exclusive;
mod unique;
mod whole;

pub use completed::symbols_are_completed;
pub use errors::{depths_come_first, ends_come_first, failures_come_first, left_tokens_come_first};
pub use exclusive::answers_exclude_each_other;
pub use unique::readings_are_unique;
pub use whole::whole_readings_have_values;
