use mc_charset::{Charset, CollId};
use mc_convert::Repertoire;

/// An operand of an operation on texts, as far as the choice of a collation looks at it.
#[derive(Clone, Copy, Debug, PartialEq, Eq)]
pub struct Operand {
    /// The set of its text.
    pub charset: Charset,
    /// The collation of its text, one of the set.
    pub collation: CollId,
    /// Whether the collation is built in, and so compares numbers of characters.
    pub bin: bool,
    /// Its coercibility, 0 (explicit) to 6 (ignorable).
    pub level: u8,
    /// The class of all characters that its text may have.
    pub repertoire: Repertoire,
}

/// What the operands are brought together for.
#[derive(Clone, Copy, Debug, PartialEq, Eq)]
pub enum Purpose {
    /// To compare them, which takes a collation.
    Compare,
    /// To make a text of them, which takes a set.
    Text,
}

/// What operands have together.
#[derive(Clone, Copy, Debug, PartialEq, Eq)]
pub enum Agg {
    /// This set, collation, level and repertoire.
    Uses(Operand),
    /// Nothing: an illegal mix of collations.
    Mix,
}
