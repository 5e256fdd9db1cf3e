use mc_charset::CollId;

/// What the values of a key are compared as.
#[derive(Clone, Copy, Debug, PartialEq, Eq)]
pub enum KeyKind {
    /// Whole numbers.
    Int,
    /// Texts, by the collation of this number.
    Text(CollId),
}
