//! The eight character sets of MySQL 8.0 (its manual, 10.9 and 10.10): which bytes spell a
//! character, and which characters a text has.
//!
//! `specs/Tables` has the rows of each set, in the form of the Unicode Standard's Table 3-7, and
//! `specs/Chars` what a text's characters are by them. Read the modules in this order: `charset`
//! and `names` (the sets), `char_at` and `spelling`, then one module for each form of spelling,
//! `bytes`, `latin1`, `utf8` and `wide`; `front` and `put` (one character of any set), `encoding`
//! and `encodings` (sets as types, for loops that ask once for the set), `firsts`, `count` and
//! `well_formed` (whole texts), and `laws`, which other crates prove with.
#![tactic(auto)]

mod bytes;
mod char_at;
mod charset;
mod collation_id;
mod count;
mod encoding;
mod encodings;
mod firsts;
mod front;
mod latin1;
mod laws;
mod names;
mod put;
mod spelling;
mod utf8;
mod well_formed;
mod wide;

pub use char_at::CharAt;
pub use charset::Charset;
pub use collation_id::CollId;
pub use count::{char_count, char_start};
pub use encoding::{Encoding, has_in, next_in, put_in};
pub use encodings::{Ascii, Binary, Latin1, Ucs2, Utf8mb3, Utf8mb4, Utf16, Utf32};
pub use front::next_char;
pub use laws::{bytes_law, chars_law, set_names_law, utf8_law, wider_law};
pub use names::{bin_of, charset_by_name, charset_name, is_unicode, same_set};
pub use put::{PutChar, byte_of, has_char, put_char};
pub use spelling::Spelling;
pub use well_formed::is_well_formed;
