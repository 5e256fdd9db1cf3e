//! The elements of characters that an element table doesn't list.
//!
//! UTS #10, 10.1.3, and the Unicode Standard, 3.12, on Hangul syllables; the lists of ideographs
//! are the project's own. `specs/Outside.antt` says which elements a character has,
//! `specs/Elements.antt` which elements a piece has, and which lists of weights a text.
#![tactic(auto)]

mod bases;
mod family;
mod jamo;
mod laws;
mod put_outside;
mod unlisted;

pub use family::UcaFamily;
pub use laws::elements_law;
pub use put_outside::outside;
pub use unlisted::{Syllable, Unlisted, unlisted_jamo, unlisted_of};
