use crate::row::Says::{Int, Mark, Str, Word};
use crate::row::{Row, is_read_so};
use mc_token::Symbol;

const COMMENTS: [Row; 27] = [
    Row {
        script: b"--",
        tokens: &[],
        why: "two dashes at the end",
    },
    Row {
        script: b"-- ",
        tokens: &[],
        why: "two dashes and a space",
    },
    Row {
        script: b"--\n1",
        tokens: &[(Int(1), 3, 4)],
        why: "two dashes and a line feed",
    },
    Row {
        script: b"--\t1\n2",
        tokens: &[(Int(2), 5, 6)],
        why: "two dashes and a TAB",
    },
    Row {
        script: b"--1",
        tokens: &[
            (Mark(Symbol::Minus), 0, 1),
            (Mark(Symbol::Minus), 1, 2),
            (Int(1), 2, 3),
        ],
        why: "two dashes before a digit",
    },
    Row {
        script: b"--a",
        tokens: &[
            (Mark(Symbol::Minus), 0, 1),
            (Mark(Symbol::Minus), 1, 2),
            (Word(b"a"), 2, 3),
        ],
        why: "and before a letter",
    },
    Row {
        script: b"1--2",
        tokens: &[
            (Int(1), 0, 1),
            (Mark(Symbol::Minus), 1, 2),
            (Mark(Symbol::Minus), 2, 3),
            (Int(2), 3, 4),
        ],
        why: "a minus and a sign",
    },
    Row {
        script: b"1-- 2",
        tokens: &[(Int(1), 0, 1)],
        why: "a comment",
    },
    Row {
        script: b"- -",
        tokens: &[(Mark(Symbol::Minus), 0, 1), (Mark(Symbol::Minus), 2, 3)],
        why: "a space between them",
    },
    Row {
        script: b"---",
        tokens: &[(Mark(Symbol::Minus), 0, 1)],
        why: "the second of three begins a comment",
    },
    Row {
        script: b"--- 1",
        tokens: &[(Mark(Symbol::Minus), 0, 1)],
        why: "here too",
    },
    Row {
        script: b"---1",
        tokens: &[
            (Mark(Symbol::Minus), 0, 1),
            (Mark(Symbol::Minus), 1, 2),
            (Mark(Symbol::Minus), 2, 3),
            (Int(1), 3, 4),
        ],
        why: "three of them",
    },
    Row {
        script: b"-",
        tokens: &[(Mark(Symbol::Minus), 0, 1)],
        why: "one dash at the end",
    },
    Row {
        script: b"a#b\nc",
        tokens: &[(Word(b"a"), 0, 1), (Word(b"c"), 4, 5)],
        why: "up to the end of the line",
    },
    Row {
        script: b"a #",
        tokens: &[(Word(b"a"), 0, 1)],
        why: "up to the end",
    },
    Row {
        script: b"a#\r\nb",
        tokens: &[(Word(b"a"), 0, 1), (Word(b"b"), 4, 5)],
        why: "the CR is of the comment",
    },
    Row {
        script: b"a/**/b",
        tokens: &[(Word(b"a"), 0, 1), (Word(b"b"), 5, 6)],
        why: "a comment parts words",
    },
    Row {
        script: b"1/*2*/3",
        tokens: &[(Int(1), 0, 1), (Int(3), 6, 7)],
        why: "and numbers",
    },
    Row {
        script: b"</**/=",
        tokens: &[(Mark(Symbol::Lt), 0, 1), (Mark(Symbol::Eq), 5, 6)],
        why: "and marks",
    },
    Row {
        script: b"/*/*/1",
        tokens: &[(Int(1), 5, 6)],
        why: "the star that opens does not close",
    },
    Row {
        script: b"/* /* */1",
        tokens: &[(Int(1), 8, 9)],
        why: "they do not nest",
    },
    Row {
        script: b"/***/1",
        tokens: &[(Int(1), 5, 6)],
        why: "a star before the end",
    },
    Row {
        script: b"/*'*/1",
        tokens: &[(Int(1), 5, 6)],
        why: "a quote inside",
    },
    Row {
        script: b"/*\n*//**/1",
        tokens: &[(Int(1), 9, 10)],
        why: "two of them",
    },
    Row {
        script: b"'a'-- b\n'c'",
        tokens: &[(Str(b"a"), 0, 3), (Str(b"c"), 8, 11)],
        why: "between strings",
    },
    Row {
        script: b"#/*\n1",
        tokens: &[(Int(1), 4, 5)],
        why: "a line comment hides a block",
    },
    Row {
        script: b"/*#*/1",
        tokens: &[(Int(1), 5, 6)],
        why: "and the other way",
    },
];

#[test]
fn comments_between_tokens(rt: HostRuntime) {
    for row in &COMMENTS {
        assert!(rt; is_read_so(rt.alloc(), row), "{row:?}");
    }
}
