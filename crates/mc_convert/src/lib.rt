//! Repertoires of texts and sets, and the conversion of texts between character sets: MySQL 8.0
//! manual, 10.2.1, 10.10 and 12.10.
//!
//! `specs/Conversion` says what a converted text is, `specs/Kept` between which sets texts keep their
//! bytes, `specs/Classes` what a repertoire is, and `specs/Repertoires` which one a text has.
//! Read the modules in this order: `plain` and `plain_front` (texts that are ASCII, and fronts of
//! texts), `kept` (`keeps_bytes`: no text needs to be converted), `steps` (one loop for each pair
//! of sets), `conversion` (`convert` and `convert_into`: a character that the new set lacks becomes
//! `?`), `exact` (`convert_exact`: it is refused), `padding` (`reinterpret`: bytes taken for a
//! text), `repertoire`, and `laws`, which say how repertoires and conversion go together.
#![tactic(auto)]

mod conversion;
mod exact;
mod kept;
mod laws;
mod padding;
mod plain;
mod plain_front;
mod repertoire;
mod steps;

pub use conversion::{convert, convert_into};
pub use exact::{ConvertFault, convert_exact};
pub use kept::keeps_bytes;
pub use laws::{conversion_law, repertoire_law};
pub use padding::reinterpret;
pub use repertoire::{Repertoire, cap, repertoire_of};
