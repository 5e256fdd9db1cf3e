use mc_base::{List, Text};

/// A constant: NULL, or a text of the collation's set.
#[derive(Drop)]
pub enum Cell {
    /// NULL.
    Null,
    /// A text.
    Str(Text),
}

/// A condition on a column: MySQL 8.0 manual, 12.4.2, Comparison Functions and Operators, and
/// 12.8.1, LIKE.
#[derive(Drop)]
pub enum Cond {
    /// Equal to the constant.
    Eq(Cell),
    /// Not above the constant: for `<` and `<=`.
    AtMost(Cell),
    /// Not below the constant: for `>` and `>=`.
    AtLeast(Cell),
    /// Not below the first and not above the second constant.
    Between(Cell, Cell),
    /// Equal to one of the constants.
    In(List<Cell>),
    /// Like the pattern, in which the escape, a code point, makes the next character stand for
    /// itself.
    Like { pattern: Cell, escape: Option<u32> },
}
