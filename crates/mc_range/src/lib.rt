//! The intervals of an index in which the texts lie that meet a condition: MySQL 8.0 manual,
//! 8.2.1.2 and 8.3.5.
//!
//! A condition compares a column with constants (`specs/Condition.antt`). Its intervals are lists
//! of weights from one end to another (`specs/Intervals.antt`), for an index of whole texts or of
//! their first characters. There a text that is equal to a constant may have one of several lists,
//! the candidates (`specs/Candidates.antt`), and LIKE uses the literals that no contraction of
//! other characters reaches (`specs/Safe.antt`). `specs/Finds.antt` says what the intervals are
//! good for: no text that meets the condition lies outside of them. Of their ends bounds can be
//! made, between which an index is read (`specs/Bounds.antt`).
//!
//! Read the modules in this order: `condition` and `interval`; `lists` (the lists of a text);
//! `place` and `ends` (the least and the greatest candidate); `equal`; `safe` and `like`;
//! `cond_intervals`; `laws`, which other crates prove with.
//!
//! `intervals(alloc, &Cond::Eq(Cell::Str(text)), Some(1), &collation)` names the intervals of the
//! texts equal to `text` in an index of first characters.
#![tactic(auto)]

mod cond_intervals;
mod condition;
mod ends;
mod equal;
mod interval;
mod laws;
mod like;
mod lists;
mod place;
mod safe;

pub use cond_intervals::intervals;
pub use condition::{Cell, Cond};
pub use interval::Interval;
pub use laws::range_laws;
