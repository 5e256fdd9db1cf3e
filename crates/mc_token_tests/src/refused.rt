use crate::row::tokens_of;
use mc_token::LexFault;
use std::alloc::Global;

/// A statement, and the byte where no token begins or where one does that isn't closed.
#[derive(Debug)]
struct Refused {
    script: &'static [u8],
    at: u32,
    why: &'static str,
}

const REFUSED: [Refused; 62] = [
    Refused {
        script: b"'",
        at: 0,
        why: "a quote alone",
    },
    Refused {
        script: b"'a",
        at: 0,
        why: "a single quote that is not closed",
    },
    Refused {
        script: b"\"a",
        at: 0,
        why: "a double quote",
    },
    Refused {
        script: b"`a",
        at: 0,
        why: "a backquote",
    },
    Refused {
        script: b"a \"b'",
        at: 2,
        why: "another quote closes nothing",
    },
    Refused {
        script: b"'a''",
        at: 0,
        why: "a doubled quote closes nothing",
    },
    Refused {
        script: b"'a\\'",
        at: 0,
        why: "nor does a hidden one",
    },
    Refused {
        script: b"'\\",
        at: 0,
        why: "a backslash at the end",
    },
    Refused {
        script: b"`",
        at: 0,
        why: "a backquote alone",
    },
    Refused {
        script: b"``",
        at: 0,
        why: "no name between backquotes",
    },
    Refused {
        script: b"`a b`",
        at: 0,
        why: "a space in a name",
    },
    Refused {
        script: b"`1`",
        at: 0,
        why: "a digit at the front of a name",
    },
    Refused {
        script: b"`a-b`",
        at: 0,
        why: "a dash in a name",
    },
    Refused {
        script: b"`\xc3\xa9`",
        at: 0,
        why: "a letter above 7F in a name",
    },
    Refused {
        script: b"`a\"",
        at: 0,
        why: "another quote closes no name",
    },
    Refused {
        script: b"`aaaaaaaaaaaaaaaaaaaaaaaaaaaaaaaaaaaaaaaaaaaaaaaaaaaaaaaaaaaaaaaaa`",
        at: 0,
        why: "a name that is too long",
    },
    Refused {
        script: b"N'a",
        at: 0,
        why: "a national string that is not closed",
    },
    Refused {
        script: b"X'4'",
        at: 0,
        why: "an odd number of digits in quotes",
    },
    Refused {
        script: b"x'4G'",
        at: 0,
        why: "a letter that is no digit",
    },
    Refused {
        script: b"X'41",
        at: 0,
        why: "no quote behind the digits",
    },
    Refused {
        script: b"X'4 1'",
        at: 0,
        why: "a space between digits",
    },
    Refused {
        script: b"0x",
        at: 0,
        why: "no digit behind the x",
    },
    Refused {
        script: b"0xg",
        at: 0,
        why: "a letter behind the x",
    },
    Refused {
        script: b"0X41",
        at: 0,
        why: "a capital X",
    },
    Refused {
        script: b"0x1g",
        at: 0,
        why: "a letter behind the digits",
    },
    Refused {
        script: b"0x41_",
        at: 0,
        why: "an underscore behind the digits",
    },
    Refused {
        script: b"0x41$",
        at: 0,
        why: "a dollar sign behind the digits",
    },
    Refused {
        script: b"1a",
        at: 0,
        why: "a letter behind a number",
    },
    Refused {
        script: b"1_",
        at: 0,
        why: "an underscore behind a number",
    },
    Refused {
        script: b"1$",
        at: 0,
        why: "a dollar sign behind a number",
    },
    Refused {
        script: b"0b'1'",
        at: 0,
        why: "no binary literals",
    },
    Refused {
        script: b"9223372036854775808",
        at: 0,
        why: "a number that is too great",
    },
    Refused {
        script: b"10000000000000000000",
        at: 0,
        why: "one with a digit more",
    },
    Refused {
        script: b"1e5",
        at: 0,
        why: "no exponents",
    },
    Refused {
        script: b"a \xc3\xa9",
        at: 2,
        why: "a letter above 7F",
    },
    Refused {
        script: b"a\xc3\xa9",
        at: 1,
        why: "one behind a word",
    },
    Refused {
        script: b"\xef\xbb\xbfa",
        at: 0,
        why: "a byte order mark",
    },
    Refused {
        script: b"a \x00",
        at: 2,
        why: "a zero byte",
    },
    Refused {
        script: b"1 \x7f",
        at: 2,
        why: "a byte that is no character to be seen",
    },
    Refused {
        script: b"!",
        at: 0,
        why: "an exclamation mark alone",
    },
    Refused {
        script: b"!<",
        at: 0,
        why: "before another mark",
    },
    Refused {
        script: b"! =",
        at: 0,
        why: "before a space",
    },
    Refused {
        script: b"<!",
        at: 1,
        why: "behind one",
    },
    Refused {
        script: b"/",
        at: 0,
        why: "a slash",
    },
    Refused {
        script: b"1 / 2",
        at: 2,
        why: "a slash between numbers",
    },
    Refused {
        script: b"*/",
        at: 1,
        why: "a slash behind a star",
    },
    Refused {
        script: b"/*",
        at: 0,
        why: "a comment that is not closed",
    },
    Refused {
        script: b"a /*/",
        at: 2,
        why: "its star closes nothing",
    },
    Refused {
        script: b"a /* * /",
        at: 2,
        why: "a star and a slash apart",
    },
    Refused {
        script: b"/*! 1 */",
        at: 0,
        why: "an exclamation mark makes no comment",
    },
    Refused {
        script: b"a /*!*/",
        at: 2,
        why: "here too",
    },
    Refused {
        script: b"a ? b",
        at: 2,
        why: "a question mark",
    },
    Refused {
        script: b"@a",
        at: 0,
        why: "no variables",
    },
    Refused {
        script: b"a || b",
        at: 2,
        why: "no bars",
    },
    Refused {
        script: b"a && b",
        at: 2,
        why: "no ampersands",
    },
    Refused {
        script: b"a := 1",
        at: 2,
        why: "no colons",
    },
    Refused {
        script: b"~1",
        at: 0,
        why: "no tilde",
    },
    Refused {
        script: b"1 ^ 2",
        at: 2,
        why: "no caret",
    },
    Refused {
        script: b"[a]",
        at: 0,
        why: "no brackets",
    },
    Refused {
        script: b"{a}",
        at: 0,
        why: "no braces",
    },
    Refused {
        script: b"a \\ b",
        at: 2,
        why: "a backslash",
    },
    Refused {
        script: b"a ; b",
        at: 2,
        why: "a semicolon",
    },
];

/// Whether the statement has no tokens from the row's byte on.
fn is_refused_so(alloc: Global, row: &Refused) -> bool {
    matches!(tokens_of(alloc, row.script), Err(LexFault::NoToken(at)) if at == row.at)
}

#[test]
fn no_token_begins_there(rt: HostRuntime) {
    for row in &REFUSED {
        assert!(rt; is_refused_so(rt.alloc(), row), "{row:?}");
    }
}
