//! What every crate of the engine stands on: owned lists that contracts see as lists, files and
//! sinks with their faults, texts cut into lines and fields, and the refusals that all readers
//! give.
//!
//! Read the modules in this order. Memory: `list`, `boxed`, `no_memory`. The outside, where a
//! device or memory may fail: `outside` (the traits), `real_files` and `real_sink` (the operating
//! system; POSIX.1, open, read and write), `fault_plan`, `mem_files` and `mem_sink` (in memory,
//! failing as planned). Files as texts: `whole` (under any limit) and `file` (the engine's limit,
//! with the refusals of a file). Lines of settings: `blanks`, `places`, `lines`, `fields`, `hex`.
//! Answers: `span` (a place in a script), `refusal`, `steps` (a counter).
//!
//! `specs/FirstFault` says which fault of many lines is told, and `specs/Results` what comes of a
//! value or of the error in its place.
#![tactic(auto)]

mod blanks;
mod boxed;
mod fault_plan;
mod fields;
mod file;
mod hex;
mod lines;
mod list;
mod mem_files;
mod mem_sink;
mod no_memory;
mod outside;
mod places;
mod real_files;
mod real_sink;
mod refusal;
mod span;
mod steps;
mod whole;

pub use boxed::Boxed;
pub use fields::next_field;
pub use file::{FileFault, read_file, refuse_file};
pub use hex::hex_number;
pub use lines::{Line, LineReader};
pub use list::{List, Text, Weights};
pub use mem_files::MemFiles;
pub use mem_sink::MemSink;
pub use no_memory::NoMemory;
pub use outside::{Files, OpenAnswer, PutAnswer, ReadAnswer, Sink};
pub use real_files::RealFiles;
pub use real_sink::RealSink;
pub use refusal::{FileRefusal, Refusal};
pub use span::Span;
pub use steps::Steps;
pub use whole::{ReadWhole, read_whole};
