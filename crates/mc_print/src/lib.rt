//! Answers and refusals as the bytes that are written: this engine's own conventions.
//!
//! An answer is a line of headers and a line for each row. Cells stand a TAB apart, and each line
//! ends with a line feed. NULL is `NULL`, a number is in decimal digits, a binary string is `0x`
//! and hexadecimal digits in upper case, and any other string is in UTF-8. In headers and strings
//! NUL, TAB, LF and the backslash are written `\0`, `\t`, `\n` and `\\`, so that lines and cells
//! can be told apart and each text can be read back. A refusal is `ERROR NUMBER: TEXT` in a line.
//! `specs/Lines` says all this.
//!
//! Read the modules in this order: `escape`, `cell`, `table` (`answer_text`, `push_answer`),
//! `refused` (`refusal_text`), `laws`.
#![tactic(auto)]

mod cell;
mod escape;
mod laws;
mod refused;
mod table;

pub use laws::escape_law;
pub use refused::refusal_text;
pub use table::{answer_text, push_answer};
