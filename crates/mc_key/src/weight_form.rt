/// What WEIGHT_STRING is asked for: MySQL 8.0 manual, 14.8, WEIGHT_STRING.
#[derive(Clone, Copy, Debug, PartialEq, Eq)]
pub enum WeightForm {
    /// The weights of the text.
    Plain,
    /// Those of so many characters: the text is cut, or gets spaces behind it. AS CHAR.
    Chars(u32),
    /// The text's own bytes, so many: they are cut, or get zero bytes behind them. AS BINARY.
    Bytes(u32),
}
