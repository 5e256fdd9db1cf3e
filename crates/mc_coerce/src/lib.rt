//! The choice of a character set and a collation for an operation on several texts: the pair table
//! of coercibility, and the aggregate of a list of operands.
//!
//! An operand is a text's set, collation, level of coercibility and repertoire (`Operand`). Of two
//! operands one may beat the other (`beats`); of a list, the one that beats all others decides
//! (`aggregate`). `aggregate(&[column, literal], Purpose::Compare)` answers the collation of the
//! comparison `column = literal`, or `Agg::Mix`: an illegal mix of collations.
//!
//! The levels and their order are those of the MySQL 8.0 manual, 10.8.4. The chain of repertoires,
//! finer than those of 10.2.1, and the table for operands of different sets are this project's.
//!
//! Modules in reading order: `levels`, `operand`, `condition` (what operands keep to), `sets`
//! (character sets beside each other), `pair` (two operands), `demand` (what decides for a list),
//! `aggregates` (the list), `laws`.
#![tactic(auto)]

mod aggregates;
mod condition;
mod demand;
mod laws;
mod levels;
mod operand;
mod pair;
mod sets;

pub use aggregates::{aggregate, takes_part};
pub use condition::are_operands;
pub use laws::{mix_law, operands_law, order_law, pair_law, repertoire_law, result_law};
pub use levels::{
    COERCIBLE, EXPLICIT, IGNORABLE, IMPLICIT, NO_COLLATION, NUMERIC, SYSTEM_CONSTANT,
};
pub use operand::{Agg, Operand, Purpose};
pub use pair::beats;
