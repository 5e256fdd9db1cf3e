//! Values of typed expressions in a row: MySQL 8.0 manual, 12.
//!
//! [`eval`] gives the value of an expression in a row, [`accepts`] tells whether conjuncts accept a
//! row; where there are many rows, [`prepare`] makes the conjuncts ready once, and
//! [`accepts_prepared`] tells the same of them.
//!
//! `specs/Value` says what comes of an expression in a row, a value or a fault: of its node over
//! what comes of its operands, by the cases of `specs/Node`. `specs/Truths`, `Arithmetic`,
//! `Comparisons`, `Matches`, `TextFunctions`, `Functions` and `Weights` have the operations,
//! `specs/Acceptance` the rows that conjuncts accept, `specs/Fit` what an expression needs to be
//! evaluated, `specs/Typed` what its type says of its value, `specs/Restated` nodes in terms of
//! other ones. `specs/Shapes` and `Walk` say how the walk goes, `specs/Prepared` what is kept
//! beside a conjunct.
//!
//! Read `fault`, `held` (a value that is lent or made), `truth`, `operands`; `arithmetic`; `texts`,
//! `comparisons`, `betweens`, `lists`, `likes`; `results`, `text_operands`, `conversions`,
//! `weights`; of calls `taken` (their operands by their number), `measures`, `digits`, `slices`,
//! `pads`, `trims`, `replacements`, `joins`, and `functions`, which has them all; `constants`,
//! `nodes`, `shape`, `walk` and `values`; of prepared conjuncts `column_comparisons`,
//! `column_matches`, `forms` and `prepared`; and `laws`, which other crates prove with.
#![tactic(auto)]

mod arithmetic;
mod betweens;
mod column_comparisons;
mod column_matches;
mod comparisons;
mod constants;
mod conversions;
mod digits;
mod fault;
mod forms;
mod functions;
mod held;
mod joins;
mod laws;
mod likes;
mod lists;
mod measures;
mod nodes;
mod operands;
mod pads;
mod prepared;
mod replacements;
mod results;
mod shape;
mod slices;
mod taken;
mod text_operands;
mod texts;
mod trims;
mod truth;
mod values;
mod walk;
mod weights;

pub use fault::EvalFault;
pub use laws::{evaluation_law, operations_law};
pub use prepared::{Prepared, accepts_prepared, prepare};
pub use truth::Truth;
pub use values::{accepts, eval};
