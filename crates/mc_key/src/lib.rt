//! Keys, by which rows are sorted, grouped and found, and WEIGHT_STRING: MySQL 8.0 manual, 10.8.5
//! and 14.8.
//!
//! A key is the weight list of a text, or of its first characters, without the spaces at its end
//! where the collation pads: so two keys are equal exactly where their lists are one. A bound is an
//! end of a range of keys, which may stand beside every key (`specs/Keys.antt`). Both compare as
//! texts do (`specs/Laws.antt`). A front is a number of a key's first weights, which decides most
//! comparisons of a sort (`specs/Fronts.antt`). `specs/WeightString.antt` has the bytes of weights.
//!
//! Read the modules in this order: `key`, `front`, `bound`, `weight_form`, `padding` (a text with
//! spaces behind it), `strings`; and `laws`, which other crates prove with.
//!
//! `make_key(Global, &collation, text, None)` is made once a row; `compare_key` takes no memory.
//! `put_key` puts the keys of many rows into one buffer.
#![tactic(auto)]

mod bound;
mod front;
mod key;
mod laws;
mod padding;
mod strings;
mod weight_form;

pub use bound::{Bound, TOP, compare_bound, make_bound};
pub use front::{compare_with_fronts, front_law, front_of};
pub use key::{Key, compare_key, make_key, put_key};
pub use laws::key_laws;
pub use strings::weight_string;
pub use weight_form::WeightForm;
