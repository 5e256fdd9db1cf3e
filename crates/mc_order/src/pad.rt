/// Whether a collation compares texts as if prolonged by spaces without end (MySQL 8.0 manual,
/// 10.8.5, "Trailing Space Handling in Comparisons").
#[derive(Clone, Copy, Debug, PartialEq, Eq)]
pub enum Pad {
    PadSpace,
    NoPad,
}
