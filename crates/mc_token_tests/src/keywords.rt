use mc_token::{Keyword, keyword_named};

/// A word that is a keyword, and whether it is reserved.
#[derive(Debug)]
struct Row {
    word: &'static [u8],
    keyword: Keyword,
    is_reserved: bool,
    why: &'static str,
}

const KEYWORDS: [Row; 10] = [
    Row {
        word: b"in",
        keyword: Keyword::In,
        is_reserved: true,
        why: "of two letters",
    },
    Row {
        word: b"for",
        keyword: Keyword::For,
        is_reserved: true,
        why: "a word of TRIM",
    },
    Row {
        word: b"char",
        keyword: Keyword::Char,
        is_reserved: true,
        why: "a function that is reserved",
    },
    Row {
        word: b"trim",
        keyword: Keyword::Trim,
        is_reserved: false,
        why: "a function that is not",
    },
    Row {
        word: b"count",
        keyword: Keyword::Count,
        is_reserved: false,
        why: "nor this one",
    },
    Row {
        word: b"escape",
        keyword: Keyword::Escape,
        is_reserved: false,
        why: "a word of LIKE that is not",
    },
    Row {
        word: b"offset",
        keyword: Keyword::Offset,
        is_reserved: false,
        why: "nor that of LIMIT",
    },
    Row {
        word: b"explain",
        keyword: Keyword::Explain,
        is_reserved: true,
        why: "the first word of a statement",
    },
    Row {
        word: b"character",
        keyword: Keyword::Character,
        is_reserved: true,
        why: "the first word of CHARACTER SET",
    },
    Row {
        word: b"weight_string",
        keyword: Keyword::WeightString,
        is_reserved: false,
        why: "one with `_` inside",
    },
];

/// Whether the word is the keyword of the row, and that is reserved as the row says.
fn is_as_said(row: &Row) -> bool {
    keyword_named(row.word) == Some(row.keyword)
        && row.keyword.text() == row.word
        && row.keyword.is_reserved() == row.is_reserved
}

#[test]
fn words_are_keywords(rt: HostRuntime) {
    for row in &KEYWORDS {
        assert!(rt; is_as_said(row), "{row:?}");
    }
    assert_eq!(rt; keyword_named(b"SELECT"), None);
    assert_eq!(rt; keyword_named(b"schema"), None);
    assert_eq!(rt; keyword_named(b""), None);
}
