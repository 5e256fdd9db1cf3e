//! `mycoll`: the answers of MySQL 8.0's rules for strings to a script of SQL statements.
//!
//! `run` carries the theorem of the program: the bytes written are the answers to the script's
//! statements, in order. An answer is a relation between a statement, the world that it is answered
//! by (the catalog, and what its collations mean), and the states before and behind it; `laws` says
//! that a script has one list of them.
//!
//! Its definitions stand in `specs/`: read `Words`, `Tables`, `Outcome`, `Reading`, `World`,
//! `Answers`, `Costs`, `SaidTexts`, `Answering` and `Run` in that order. In `src/` the files go
//! through `words`, `catalog_file`, `script`, `table_files` and `opening`, and a statement through
//! `reading`, `answering` and `output`; `run` joins them.
#![tactic(auto)]

mod answering;
mod catalog_file;
#[cfg(test)]
mod catalog_tests;
#[cfg(test)]
mod expression_tests;
#[cfg(test)]
mod grammar_tests;
#[cfg(test)]
mod group_tests;
mod laws;
mod messages;
mod opening;
mod output;
#[cfg(test)]
mod plan_tests;
mod reading;
mod refused;
mod run;
mod said;
#[cfg(test)]
mod scan_tests;
mod script;
#[cfg(test)]
mod script_tests;
mod status;
mod table_files;
#[cfg(test)]
mod tests;
mod unanswered;
#[cfg(test)]
mod unicode_tests;
mod words;
#[cfg(test)]
mod worked_files;
#[cfg(test)]
mod worked_tests;

use crate::run::run;
use crate::status::Status;
use crate::words::words_of;
use mc_base::{NoMemory, RealFiles, RealSink, Steps};
use std::process::ExitCode;

/// Marks the counter of comparisons.
#[derive(Drop)]
struct Compared;

/// Marks the counter of rows that are fetched.
#[derive(Drop)]
struct Fetched;

fn main(rt: HostRuntime) -> ExitCode {
    let status = match words_of(rt.alloc(), &rt) {
        Ok(words) => run(
            rt.alloc(),
            words.as_slice(),
            &mut RealFiles::new(rt),
            &mut RealSink::new(rt),
            &mut Steps::start(Compared),
            &mut Steps::start(Fetched),
        ),
        Err(NoMemory) => Status::NoMemory,
    };
    ExitCode::from(status as u8)
}
