use mc_base::List;
use mc_range::Interval;

/// How the rows of a table are found.
#[derive(Drop)]
pub enum Plan {
    /// All rows are read.
    Scan,
    /// Those rows are read that an index has in one of these intervals: the index's place in its
    /// table, and that of the conjunct that names the intervals, both counted from 0.
    ByIndex {
        index: u32,
        conjunct: u32,
        intervals: List<Interval>,
    },
}
