//! The table of collation elements of Unicode texts, read from a file in the form of `allkeys.txt`.
//!
//! UTS #10, 3, 9 and 10.1.3. `specs/Table.antt` says what a table is, `specs/Longest.antt` what the
//! longest contraction of a text is, `specs/Pieces.antt` and `specs/Levels.antt` how a text is cut
//! and weighed; `specs/Listed.antt`, `specs/RangeLine.antt` and `specs/Said.antt` have the forms of
//! lines, `specs/Faults.antt` their faults, `specs/KeysFile.antt` what a file says and when it is
//! refused.
//!
//! Read `keys`, the table; then `singles` with its `page`s, `contractions`, and `ranges` with their
//! `starts` and `steps`, by which it is held, and `put_all`; then `cut`, `codes`, `elements`,
//! `range_line`, `line` and `reader`, by which a file is read.
#![tactic(auto)]

mod codes;
mod contractions;
mod cut;
mod element;
mod elements;
mod fault;
mod keys;
mod laws;
mod line;
mod page;
mod put_all;
mod range;
mod range_line;
mod ranges;
mod reader;
mod singles;
mod starts;
mod steps;

pub use element::Element;
pub use fault::KeysFault;
pub use keys::Keys;
pub use laws::{cut_law, front_law, keys_file_law, keys_law, level_law, longest_law, piece_law};
pub use range::Range;
pub use reader::read_allkeys;
