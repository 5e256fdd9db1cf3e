use crate::script_tests::is_answered;
use crate::status::Status;
use mc_base::{NoMemory, Text};
use std::alloc::Global;

/// A script that is answered without a catalog, and what is written.
struct Script {
    why: &'static str,
    script: &'static [u8],
    status: Status,
    written: &'static [u8],
}

const READ: [Script; 11] = [
    Script {
        why: "one row of several items, each under its alias",
        script: b"SELECT 1 AS a, NULL b, 'x' = 'x  ' c;",
        status: Status::Done,
        written: b"a\tb\tc\n1\tNULL\t1\n",
    },
    Script {
        why: "a header is the script's bytes, outer parentheses included",
        script: b"SELECT ( 'a' )=(('a' 'b'))  , ((TRUE)) , FALSE;",
        status: Status::Done,
        written: b"( 'a' )=(('a' 'b'))\t((TRUE))\tFALSE\n0\t1\t0\n",
    },
    Script {
        why: "an alias is folded, and comments are no part of it",
        script: b"select/*;*/9223372036854775807/**/As/**/`Big`-- ;\n",
        status: Status::Done,
        written: b"big\n9223372036854775807\n",
    },
    Script {
        why: "the first item with a refusal decides",
        script: b"SELECT NULL, 'a' COLLATE nope = 'a', HEX(_utf8mb4 X'FF')",
        status: Status::SomeRefused,
        written: b"ERROR 1273: Unknown collation: 'nope'\n",
    },
    Script {
        why: "a refusal under EXPLAIN",
        script: b"EXPLAIN SELECT 'a' COLLATE nope = 'a'",
        status: Status::SomeRefused,
        written: b"ERROR 1273: Unknown collation: 'nope'\n",
    },
    Script {
        why: "comparisons do not chain",
        script: b"SELECT 'a' = 'b' = 'c'",
        status: Status::SomeRefused,
        written: b"ERROR 9001: no reading at byte 17\n",
    },
    Script {
        why: "no token comes first, and its byte counts",
        script: b"SELECT 1 2 X'4';SELECT X'4'",
        status: Status::SomeRefused,
        written: b"ERROR 9001: no reading at byte 11\nERROR 9001: no reading at byte 23\n",
    },
    Script {
        why: "mod is the word of a call there",
        script: b"SELECT mod 1",
        status: Status::SomeRefused,
        written: b"ERROR 9001: no reading at byte 11\n",
    },
    Script {
        why: "the end of a statement is before its semicolon",
        script: b"SELECT mod ; SELECT 1 +",
        status: Status::SomeRefused,
        written: b"ERROR 9001: no reading at byte 11\nERROR 9001: no reading at byte 23\n",
    },
    Script {
        why: "without an alias ESCAPE is the clause",
        script: b"SELECT 1 FROM t WHERE a LIKE b ESCAPE 5",
        status: Status::SomeRefused,
        written: b"ERROR 9001: no reading at byte 38\n",
    },
    Script {
        why: "where an alias may stand it is one",
        script: b"SELECT a LIKE b escape",
        status: Status::SomeRefused,
        written: b"ERROR 1054: Unknown column 'a'\n",
    },
];

fn is_read_so(alloc: Global, row: &Script) -> Result<bool, NoMemory> {
    let script = Text::from_slice(alloc, row.script)?;
    is_answered(alloc, script, row.status, row.written)
}

#[test]
fn statements_are_read_by_the_grammar(rt: HostRuntime) {
    for row in &READ {
        assert!(rt; is_read_so(rt.alloc(), row).unwrap_or(false), "{}", row.why);
    }
}

/// A statement with a text that is repeated, and what is written.
struct Long {
    why: &'static str,
    front: &'static [u8],
    repeated: &'static [u8],
    times: usize,
    behind: &'static [u8],
    written: &'static [u8],
}

const LONG: [Long; 6] = [
    Long {
        why: "2,048 tokens",
        front: b"SELECT 'a'",
        repeated: b"+1",
        times: 1023,
        behind: b"",
        written: b"ERROR 9002: wrong argument for '+'\n",
    },
    Long {
        why: "2,049 tokens",
        front: b"SELECT -1",
        repeated: b"+1",
        times: 1023,
        behind: b"",
        written: b"ERROR 9004: more than 2048 tokens\n",
    },
    Long {
        why: "more than 2,048 tokens before what they read",
        front: b"; SELECT",
        repeated: b" FROM",
        times: 2048,
        behind: b"",
        written: b"ERROR 9004: more than 2048 tokens\n",
    },
    Long {
        why: "no token before too many tokens",
        front: b"SELECT",
        repeated: b" 1",
        times: 2048,
        behind: b" '",
        written: b"ERROR 9001: no reading at byte 4103\n",
    },
    Long {
        why: "64 parentheses, and a missing operand",
        front: b"SELECT ",
        repeated: b"(",
        times: 64,
        behind: b")",
        written: b"ERROR 9001: no reading at byte 71\n",
    },
    Long {
        why: "65 parentheses",
        front: b"SELECT ",
        repeated: b"(",
        times: 65,
        behind: b"1",
        written: b"ERROR 9003: nested deeper than 64 at byte 71\n",
    },
];

fn is_refused_so(alloc: Global, row: &Long) -> Result<bool, NoMemory> {
    let mut script = Text::from_slice(alloc, row.front)?;
    for _ in 0..row.times {
        script.extend_from_slice(row.repeated)?;
    }
    script.extend_from_slice(row.behind)?;
    is_answered(alloc, script, Status::SomeRefused, row.written)
}

#[test]
fn long_statements_are_refused(rt: HostRuntime) {
    for row in &LONG {
        assert!(rt;
            is_refused_so(rt.alloc(), row).unwrap_or(false),
            "{}",
            row.why
        );
    }
}
