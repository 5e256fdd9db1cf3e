use crate::value::Row;
use mc_base::{List, Text};

/// A table that is answered.
#[derive(Drop)]
pub struct Answer {
    /// The headers of its columns, in UTF-8.
    pub header: List<Text>,
    /// Its rows, each with a value a column.
    pub rows: List<Row>,
}
