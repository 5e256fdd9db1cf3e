use crate::row::Says::{Int, Mark, Word};
use crate::row::{Says, are_as};
use mc_token::{Symbol, next_statement, tokens};
use std::alloc::Global;

/// A cut worked out by hand: the script, the byte to go on from, and the statement's start, its end
/// and where to go on.
struct Cut {
    script: &'static str,
    from: u32,
    statement: Option<(u32, u32, u32)>,
    why: &'static str,
}

const CUTS: [Cut; 31] = [
    Cut {
        script: "",
        from: 0,
        statement: None,
        why: "nothing",
    },
    Cut {
        script: ";;",
        from: 0,
        statement: None,
        why: "semicolons alone",
    },
    Cut {
        script: "SELECT 1;",
        from: 0,
        statement: Some((0, 8, 9)),
        why: "up to its semicolon",
    },
    Cut {
        script: "a;b",
        from: 2,
        statement: Some((2, 3, 3)),
        why: "the last one lacks a semicolon",
    },
    Cut {
        script: "'a;b';c",
        from: 0,
        statement: Some((0, 5, 6)),
        why: "single quotes hide a semicolon",
    },
    Cut {
        script: "'a;b';c",
        from: 6,
        statement: Some((6, 7, 7)),
        why: "and what follows them is cut",
    },
    Cut {
        script: "\"a;'b\";c",
        from: 0,
        statement: Some((0, 6, 7)),
        why: "double quotes hide it and a single quote",
    },
    Cut {
        script: "`a;b`",
        from: 0,
        statement: Some((0, 2, 3)),
        why: "backquotes hide nothing",
    },
    Cut {
        script: "# a;b\nc",
        from: 0,
        statement: Some((6, 7, 7)),
        why: "a number sign hides it up to the line feed",
    },
    Cut {
        script: "#a",
        from: 0,
        statement: None,
        why: "a comment that the end closes",
    },
    Cut {
        script: "-- a;b\nc",
        from: 0,
        statement: Some((7, 8, 8)),
        why: "two dashes and a space hide it",
    },
    Cut {
        script: "--\ta;b",
        from: 0,
        statement: None,
        why: "two dashes and a TAB",
    },
    Cut {
        script: "--a;b",
        from: 0,
        statement: Some((0, 3, 4)),
        why: "two dashes alone hide nothing",
    },
    Cut {
        script: "a;--",
        from: 2,
        statement: None,
        why: "two dashes at the end",
    },
    Cut {
        script: "a--",
        from: 0,
        statement: Some((0, 3, 3)),
        why: "a comment behind the first byte stays in the statement",
    },
    Cut {
        script: "a # b;\n;c",
        from: 0,
        statement: Some((0, 7, 8)),
        why: "a comment inside a statement hides a semicolon",
    },
    Cut {
        script: "/* a;b */c;",
        from: 0,
        statement: Some((9, 10, 11)),
        why: "a block comment hides it",
    },
    Cut {
        script: "/*! a;b */",
        from: 0,
        statement: Some((0, 5, 6)),
        why: "an exclamation mark makes no comment",
    },
    Cut {
        script: "/* * /;a",
        from: 0,
        statement: Some((0, 8, 8)),
        why: "a star and a slash apart close nothing",
    },
    Cut {
        script: "/*/;a",
        from: 0,
        statement: Some((0, 5, 5)),
        why: "the star that opens does not close",
    },
    Cut {
        script: "/* /* */a",
        from: 0,
        statement: Some((8, 9, 9)),
        why: "block comments do not nest",
    },
    Cut {
        script: "'a\\\\';'",
        from: 0,
        statement: Some((0, 5, 6)),
        why: "a hidden backslash hides no quote",
    },
    Cut {
        script: "'a\\\\';'",
        from: 6,
        statement: Some((6, 7, 7)),
        why: "an unclosed quote is a statement",
    },
    Cut {
        script: "'a\\';'",
        from: 0,
        statement: Some((0, 6, 6)),
        why: "a backslash hides a quote",
    },
    Cut {
        script: "'a'';b'",
        from: 0,
        statement: Some((0, 7, 7)),
        why: "a doubled quote stays inside",
    },
    Cut {
        script: "'a'\"b;\";",
        from: 0,
        statement: Some((0, 7, 8)),
        why: "another quote begins another string",
    },
    Cut {
        script: "'a;",
        from: 0,
        statement: Some((0, 3, 3)),
        why: "an unclosed quote runs to the end",
    },
    Cut {
        script: "a\r\n;\x0b\x0cb",
        from: 0,
        statement: Some((0, 3, 4)),
        why: "CR and LF before the semicolon stay",
    },
    Cut {
        script: "a\r\n;\x0b\x0cb",
        from: 4,
        statement: Some((6, 7, 7)),
        why: "VT and FF are spaces",
    },
    Cut {
        script: "é;b",
        from: 0,
        statement: Some((0, 2, 3)),
        why: "bytes above 7F are content",
    },
    Cut {
        script: "a /* b",
        from: 0,
        statement: Some((0, 6, 6)),
        why: "an unclosed comment runs to the end",
    },
];

#[test]
fn cuts_each_script(rt: HostRuntime) {
    for row in &CUTS {
        let script = row.script.as_bytes();
        assert!(rt; script.len() < 1000);
        let found = next_statement(script, row.from);
        let cut = found.map(|(span, next)| (span.start, span.end, next));
        assert_eq!(rt; cut, row.statement, "{}", row.why);
    }
}

/// A script, and the first statement from a byte on with its tokens.
#[derive(Debug)]
struct Behind {
    script: &'static [u8],
    from: u32,
    start: u32,
    end: u32,
    tokens: &'static [(Says, u32, u32)],
}

const BEHIND: [Behind; 6] = [
    Behind {
        script: b"SELECT 1--;SELECT 2",
        from: 0,
        start: 0,
        end: 10,
        tokens: &[
            (Word(b"select"), 0, 6),
            (Int(1), 7, 8),
            (Mark(Symbol::Minus), 8, 9),
            (Mark(Symbol::Minus), 9, 10),
        ],
    },
    Behind {
        script: b"SELECT 1--",
        from: 0,
        start: 0,
        end: 10,
        tokens: &[(Word(b"select"), 0, 6), (Int(1), 7, 8)],
    },
    Behind {
        script: b"1-- ;\n;2",
        from: 0,
        start: 0,
        end: 6,
        tokens: &[(Int(1), 0, 1)],
    },
    Behind {
        script: b"1-- ;\n;2",
        from: 7,
        start: 7,
        end: 8,
        tokens: &[(Int(2), 7, 8)],
    },
    Behind {
        script: b"/* a */ -;--;",
        from: 0,
        start: 8,
        end: 9,
        tokens: &[(Mark(Symbol::Minus), 8, 9)],
    },
    Behind {
        script: b"/* a */ -;--;",
        from: 10,
        start: 10,
        end: 12,
        tokens: &[(Mark(Symbol::Minus), 10, 11), (Mark(Symbol::Minus), 11, 12)],
    },
];

/// Whether the statement is cut and read as the row says.
fn is_cut_and_read(alloc: Global, row: &Behind) -> bool {
    if row.script.len() > 1000 {
        return false;
    }
    let Some((statement, _)) = next_statement(row.script, row.from) else {
        return false;
    };
    if statement.start != row.start || statement.end != row.end {
        return false;
    }
    match tokens(alloc, row.script, statement) {
        Ok(found) => are_as(found.as_slice(), row.tokens),
        Err(_) => false,
    }
}

#[test]
fn what_stands_behind_a_statement_counts(rt: HostRuntime) {
    for row in &BEHIND {
        assert!(rt; is_cut_and_read(rt.alloc(), row), "{row:?}");
    }
}
