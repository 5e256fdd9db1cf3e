use crate::row::{Row, is_stuck};

/// Names, reserved words and literals where they cannot stand.
const NAMES: [Row; 35] = [
    Row {
        front: "SELECT 1 AS ",
        rest: "select",
    },
    Row {
        front: "SELECT 1 AS ",
        rest: "'a'",
    },
    Row {
        front: "SELECT 1 AS ",
        rest: "1",
    },
    Row {
        front: "SELECT 1 ",
        rest: "'a'",
    },
    Row {
        front: "SELECT 1 a ",
        rest: "b",
    },
    Row {
        front: "SELECT 1 AS a ",
        rest: "b",
    },
    Row {
        front: "SELECT ",
        rest: "from",
    },
    Row {
        front: "SELECT ",
        rest: "limit",
    },
    Row {
        front: "SELECT a.",
        rest: "where",
    },
    Row {
        front: "SELECT a.",
        rest: "1",
    },
    Row {
        front: "SELECT a.b",
        rest: ".c",
    },
    Row {
        front: "SELECT a.b",
        rest: "(1)",
    },
    Row {
        front: "SELECT `f`",
        rest: "(1)",
    },
    Row {
        front: "SELECT 1 FROM ",
        rest: "desc",
    },
    Row {
        front: "SELECT 'a' COLLATE ",
        rest: "'b'",
    },
    Row {
        front: "SELECT 'a' COLLATE ",
        rest: "char",
    },
    Row {
        front: "SELECT 'a' COLLATE latin1",
        rest: ".b",
    },
    Row {
        front: "SELECT a COLLATE b COLLATE ",
        rest: "1",
    },
    Row {
        front: "SELECT ",
        rest: "binary 'a'",
    },
    Row {
        front: "SELECT ",
        rest: "div 1",
    },
    Row {
        front: "SELECT mod ",
        rest: "1",
    },
    Row {
        front: "SELECT mod",
        rest: ".a",
    },
    Row {
        front: "SELECT _latin1 ",
        rest: "1",
    },
    Row {
        front: "SELECT _latin1 ",
        rest: "N'a'",
    },
    Row {
        front: "SELECT _nope ",
        rest: "'a'",
    },
    Row {
        front: "SELECT n ",
        rest: "'a'",
    },
    Row {
        front: "SELECT X'41' ",
        rest: "'a'",
    },
    Row {
        front: "SELECT _latin1 X'41' ",
        rest: "'a'",
    },
    Row {
        front: "SELECT 'a' ",
        rest: "N'b'",
    },
    Row {
        front: "SELECT 'a' ",
        rest: "X'41'",
    },
    Row {
        front: "SELECT N'a' ",
        rest: "N'b'",
    },
    Row {
        front: "SELECT 1",
        rest: ".5",
    },
    Row {
        front: "SELECT ",
        rest: ".5",
    },
    Row {
        front: "SELECT 1 ",
        rest: "2",
    },
    Row {
        front: "SELECT a ",
        rest: "1",
    },
];

#[test]
fn no_name_goes_on_so(rt: HostRuntime) {
    for row in &NAMES {
        assert!(rt; is_stuck(rt.alloc(), row), "{row:?}");
    }
}
