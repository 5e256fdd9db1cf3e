//! The values of cells, rows of them, and answers: MySQL 8.0 manual, 9.1 and 10.3.
//!
//! A value is NULL, a whole number, or a string, which is a text of a character set. What it shows
//! apart from bytes is in `specs/Shown`; that a string is a text of its set, and how long it may
//! be, is in `specs/Values`. `int_text(alloc, -7, Charset::Utf16)` gives the four bytes of `-7` in
//! utf16.
//!
//! Read the modules in this order: `value` (values, rows, copies), `answer`, `limit` (the greatest
//! length of a string), `ascii` and `numbers` (an ASCII text and a number as texts of a set),
//! `hexadecimal` (the digits of bytes and of numbers), `conversion` (a string in another set), and `laws`, which
//! other crates prove with.
#![tactic(auto)]

mod answer;
mod ascii;
mod conversion;
mod hexadecimal;
mod laws;
mod limit;
mod numbers;
mod value;

pub use answer::Answer;
pub use ascii::ascii_text;
pub use conversion::convert_value;
pub use hexadecimal::{hex_law, push_hex, push_hex_number};
pub use laws::{ascii_law, shown_law};
pub use limit::{GREATEST_STRING, is_within_limit, within_limit};
pub use numbers::int_text;
pub use value::{Row, Value, copy_value};
