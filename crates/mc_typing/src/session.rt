use mc_charset::CollId;

/// What statements may change: the collation of the connection.
#[derive(Clone, Copy, Debug, PartialEq, Eq)]
pub struct Session {
    /// One of the catalog's collations. Its set is that of plain strings.
    pub connection: CollId,
}
