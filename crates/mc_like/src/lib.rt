//! LIKE, character by character under a collation: MySQL 8.0 manual, 12.8.1.
//!
//! A pattern's characters are read as items (`specs/Items.antt`), and a text matches where some cut
//! of it matches them one after the other (`specs/Like.antt`). `specs/Laws.antt` says the same in
//! the manual's words: how escapes read, that no padding counts, that two patterns joined match at
//! a cut, and that what matches begins like the pattern's literal prefix.
//!
//! Read the modules in this order: `item`; `read` (a pattern's text as items); `fit` (the items
//! before the first `%`, one character each); `ends` (the items behind the last `%`); `matching`
//! (from one `%` to the next); `pattern`, what callers have; `laws`, which other crates prove with.
//!
//! `compile(Global, set, b"M\xC3\xBC%", Some(0x5C))?.matches(&collation, text, &mut work)` says
//! whether the text begins like `Mü`.
#![tactic(auto)]

mod ends;
mod fit;
mod item;
mod laws;
mod matching;
mod pattern;
mod read;

pub use item::PatternItem;
pub use laws::{item_laws, like_laws};
pub use pattern::{Pattern, compile};
