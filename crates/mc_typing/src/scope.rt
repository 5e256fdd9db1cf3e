use mc_charset::CollId;

/// What an expression is typed in, beside the catalog: the place of the statement's table there, if
/// it has one, and the collation of the connection.
#[derive(Clone, Copy)]
pub(crate) struct Scope {
    pub(crate) table: Option<u32>,
    pub(crate) connection: CollId,
}
