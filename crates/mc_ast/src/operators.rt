/// A comparison of two expressions: MySQL 8.0 manual, 12.4.2.
#[derive(Clone, Copy, Debug, PartialEq, Eq)]
pub enum CmpOp {
    Eq,
    /// `<=>`, which is never NULL.
    NullEq,
    Ne,
    Lt,
    Le,
    Gt,
    Ge,
}

/// An operator on numbers: MySQL 8.0 manual, 12.6.1.
#[derive(Clone, Copy, Debug, PartialEq, Eq)]
pub enum ArithOp {
    Add,
    Sub,
    Mul,
    /// `DIV`, the whole quotient.
    Div,
    /// `%` or `MOD`.
    Mod,
}

/// The side from which TRIM removes.
#[derive(Clone, Copy, Debug, PartialEq, Eq)]
pub enum TrimSide {
    Both,
    Leading,
    Trailing,
}

/// How much of a text WEIGHT_STRING takes.
#[derive(Clone, Copy, Debug, PartialEq, Eq)]
pub enum Cut {
    /// So many characters, of `AS CHAR`.
    Chars(i64),
    /// So many bytes, of `AS BINARY`.
    Bytes(i64),
}
