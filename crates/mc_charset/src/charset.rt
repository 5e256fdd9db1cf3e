/// A character set. Its spellings are stated in `specs/`.
#[derive(Clone, Copy, Debug, PartialEq, Eq)]
pub enum Charset {
    Latin1,
    Ascii,
    Utf8mb3,
    Utf8mb4,
    Ucs2,
    Utf16,
    Utf32,
    Binary,
}
