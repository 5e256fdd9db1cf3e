//! The two simple kinds of collation that a file describes: `table8` gives each byte of a one-byte
//! set one or two weights, `general` each code point of a Unicode set one.
//!
//! MySQL 8.0 manual, 10.14.3, "Adding a Simple Collation to an 8-Bit Character Set", and 10.10.1.
//! `specs/Table8.antt` and `specs/General.antt` say what such a table is, and what its collation
//! means `specs/Table8Meaning.antt` and `specs/GeneralMeaning.antt`; `specs/WeightLines.antt` has
//! the line forms of their files, `specs/Table8File.antt` and `specs/GeneralFile.antt` what a file
//! says and when it is refused. `read_table8(alloc, b"00..FF =\n")` is the table of the bytes
//! themselves.
//!
//! Read `table8` and `general`, the tables; then `byte_of`, `byte_weights` and `table8_collation`,
//! and `general_collation`, which compare by them; then `field`, `run`, `weight_line` (with
//! `table8_line` and `general_line`), `cells` and `listing`, by which `table8_reader` and
//! `general_reader` read a file.
#![tactic(auto)]

mod byte_of;
mod byte_weights;
mod cells;
mod fault;
mod field;
mod format;
mod general;
mod general_collation;
mod general_line;
mod general_reader;
mod laws;
mod listing;
mod run;
mod table8;
mod table8_collation;
mod table8_line;
mod table8_reader;
mod weight_line;

pub use fault::TableFault;
pub use general::General;
pub use general_collation::GeneralCollation;
pub use general_reader::read_general;
pub use laws::weight_file_laws;
pub use table8::Table8;
pub use table8_collation::Table8Collation;
pub use table8_reader::read_table8;
