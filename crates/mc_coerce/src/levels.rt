//! The levels of coercibility, the lowest counting most: MySQL 8.0 manual, 10.8.4.

/// The level of COLLATE.
pub const EXPLICIT: u8 = 0;
/// The level of a text whose operands have a set, but no collation together.
pub const NO_COLLATION: u8 = 1;
/// The level of a column.
pub const IMPLICIT: u8 = 2;
/// The level of a system constant, as VERSION().
pub const SYSTEM_CONSTANT: u8 = 3;
/// The level of a literal.
pub const COERCIBLE: u8 = 4;
/// The level of a number that stands as a text.
pub const NUMERIC: u8 = 5;
/// The level of what takes no part, as NULL.
pub const IGNORABLE: u8 = 6;
