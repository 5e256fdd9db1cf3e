/// Where an expression stands: MySQL 8.0 manual, 12.19.3.
#[derive(Clone, Copy)]
pub(crate) enum Place {
    /// In a row: columns have values, and no aggregate may stand there.
    Row,
    /// In a group of rows: aggregates have values, and no column may stand there.
    Group,
    /// In a group of rows, in an expression that they are grouped by.
    Key,
}
