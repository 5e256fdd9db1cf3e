/// What stands at the front of a text.
#[derive(Clone, Copy, Debug, PartialEq, Eq)]
pub enum CharAt {
    /// A character: its code point, and how many bytes spell it.
    Char { code: u32, len: usize },
    /// Nothing, since the text is empty.
    End,
    /// Bytes that no spelling of the set begins.
    Bad,
}
