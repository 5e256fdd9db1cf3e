/// The versions of the Unicode Collation Algorithm after which the kinds of collations are named.
#[derive(Clone, Copy, Debug, PartialEq, Eq)]
pub enum UcaFamily {
    /// Version 4.0.0.
    Uca4,
    /// Version 5.2.0.
    Uca520,
    /// Version 9.0.0.
    Uca9,
}
