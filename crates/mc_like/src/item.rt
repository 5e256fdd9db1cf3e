/// What a pattern has at one place.
#[derive(Clone, Copy, Debug, Drop)]
pub enum PatternItem {
    /// A character that stands for itself: its code point.
    Literal(u32),
    /// `_`: one character, whichever it is.
    One,
    /// `%`: any number of characters, none included.
    Any,
}
