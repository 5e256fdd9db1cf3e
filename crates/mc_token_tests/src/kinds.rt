use crate::row::tokens_of;
use mc_charset::Charset;
use mc_token::{Keyword, Symbol, TokenKind, kind_of};
use std::alloc::Global;

/// A statement of one token, and the token's kind.
#[derive(Debug)]
struct Row {
    script: &'static [u8],
    kind: TokenKind,
    why: &'static str,
}

const KINDS: [Row; 19] = [
    Row {
        script: b"SeLeCt",
        kind: TokenKind::Keyword(Keyword::Select),
        why: "a keyword, in either case",
    },
    Row {
        script: b"weight_string",
        kind: TokenKind::Keyword(Keyword::WeightString),
        why: "the longest one",
    },
    Row {
        script: b"selects",
        kind: TokenKind::Word,
        why: "a letter more",
    },
    Row {
        script: b"_latin1",
        kind: TokenKind::Introducer(Charset::Latin1),
        why: "`_` and the name of a set",
    },
    Row {
        script: b"_UTF8",
        kind: TokenKind::Introducer(Charset::Utf8mb3),
        why: "another name of a set, in upper case",
    },
    Row {
        script: b"_latin",
        kind: TokenKind::Word,
        why: "no set is named so",
    },
    Row {
        script: b"_",
        kind: TokenKind::Word,
        why: "nor so",
    },
    Row {
        script: b"latin1",
        kind: TokenKind::Word,
        why: "no `_` before the name",
    },
    Row {
        script: b"_select",
        kind: TokenKind::Word,
        why: "a keyword behind `_`",
    },
    Row {
        script: b"_binary",
        kind: TokenKind::Introducer(Charset::Binary),
        why: "the name of a set that is a keyword too",
    },
    Row {
        script: b"binary",
        kind: TokenKind::Keyword(Keyword::Binary),
        why: "the keyword",
    },
    Row {
        script: b"`select`",
        kind: TokenKind::Name,
        why: "no keyword between backquotes",
    },
    Row {
        script: b"`_latin1`",
        kind: TokenKind::Name,
        why: "and no introducer",
    },
    Row {
        script: b"1",
        kind: TokenKind::Int,
        why: "a number",
    },
    Row {
        script: b"'select'",
        kind: TokenKind::Str,
        why: "a string",
    },
    Row {
        script: b"N'a'",
        kind: TokenKind::National,
        why: "a national string",
    },
    Row {
        script: b"X'41'",
        kind: TokenKind::Hex,
        why: "a literal in quotes",
    },
    Row {
        script: b"0x41",
        kind: TokenKind::Hex,
        why: "one without",
    },
    Row {
        script: b"<=>",
        kind: TokenKind::Sym(Symbol::NullEq),
        why: "a mark",
    },
];

/// Whether the statement is one token of this kind.
fn is_of_kind(alloc: Global, row: &Row) -> bool {
    match tokens_of(alloc, row.script) {
        Ok(found) => match found.as_slice() {
            [token] => kind_of(&token.kind) == row.kind,
            _ => false,
        },
        Err(_) => false,
    }
}

#[test]
fn each_token_has_a_kind(rt: HostRuntime) {
    for row in &KINDS {
        assert!(rt; is_of_kind(rt.alloc(), row), "{row:?}");
    }
}
