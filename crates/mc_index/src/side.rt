/// A side of a bound, where entries may be equal to it.
#[derive(Clone, Copy, Debug, PartialEq, Eq)]
pub enum Side {
    /// In front of the entries that are equal to the bound.
    Before,
    /// Behind them.
    After,
}
