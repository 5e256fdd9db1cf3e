//! String functions on texts of a character set: MySQL 8.0 manual, 12.8.
//!
//! What a function gives is said in `specs/`, as a function on lists of characters; the text that
//! is answered is spelled by these characters. `left(alloc, Charset::Utf8mb4, "añb", 2)` gives the
//! three bytes of `añ`. Where a text would be longer than the greatest length of a string the
//! answer is None, which is NULL, and no such text is built.
//!
//! Read the modules in this order: `number` (numbers of characters), `part` (the slice that some
//! characters of a text spell), `slices` (LEFT, RIGHT, SUBSTRING), `copies` (REPEAT), `text_like`
//! (texts that are owned or lent), `joins` (CONCAT, CONCAT_WS), `pads` (LPAD, RPAD), `reversal`
//! (REVERSE), `replacement` (REPLACE), `trimming` (TRIM), `digits` (HEX), and `laws`, which other
//! crates prove with.
#![tactic(auto)]

mod copies;
mod digits;
mod joins;
mod laws;
mod number;
mod pads;
mod part;
mod replacement;
mod reversal;
mod slices;
mod text_like;
mod trimming;

pub use copies::repeat;
pub use digits::hex;
pub use joins::{concat, concat_texts, concat_texts_ws, concat_ws};
pub use laws::{repeat_law, trim_law};
pub use pads::{lpad, rpad};
pub use replacement::replace;
pub use reversal::reverse;
pub use slices::{left, right, substring};
pub use text_like::TextLike;
pub use trimming::{Side, trim};
