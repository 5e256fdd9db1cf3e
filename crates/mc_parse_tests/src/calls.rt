use crate::row::{Row, is_stuck};

/// Calls and their words where they cannot stand.
const CALLS: [Row; 43] = [
    Row {
        front: "SELECT COUNT(DISTINCT",
        rest: ")",
    },
    Row {
        front: "SELECT COUNT(DISTINCT ",
        rest: "*)",
    },
    Row {
        front: "SELECT COUNT(DISTINCT a",
        rest: ", b)",
    },
    Row {
        front: "SELECT COUNT(*",
        rest: ", a)",
    },
    Row {
        front: "SELECT COUNT(a ",
        rest: "AS b)",
    },
    Row {
        front: "SELECT f(",
        rest: "*)",
    },
    Row {
        front: "SELECT f(",
        rest: "DISTINCT a)",
    },
    Row {
        front: "SELECT f(1 ",
        rest: "2)",
    },
    Row {
        front: "SELECT f(1,",
        rest: ")",
    },
    Row {
        front: "SELECT f(",
        rest: ", 1)",
    },
    Row {
        front: "SELECT f(1 ",
        rest: "FROM 2)",
    },
    Row {
        front: "SELECT f(1 ",
        rest: "AS CHAR)",
    },
    Row {
        front: "SELECT TRIM(",
        rest: "FROM 'a')",
    },
    Row {
        front: "SELECT TRIM(BOTH",
        rest: ")",
    },
    Row {
        front: "SELECT TRIM(BOTH 'a'",
        rest: ")",
    },
    Row {
        front: "SELECT TRIM(BOTH ",
        rest: "LEADING FROM 'a')",
    },
    Row {
        front: "SELECT TRIM('a' FROM 'b' ",
        rest: "FROM 'c')",
    },
    Row {
        front: "SELECT TRIM('a', 'b' ",
        rest: "FROM 'c')",
    },
    Row {
        front: "SELECT SUBSTRING('a' FROM",
        rest: ")",
    },
    Row {
        front: "SELECT SUBSTRING('a' ",
        rest: "FOR 2)",
    },
    Row {
        front: "SELECT SUBSTRING('a' FROM 1",
        rest: ", 2)",
    },
    Row {
        front: "SELECT SUBSTRING('a' FROM 1 FOR 2 ",
        rest: "FOR 3)",
    },
    Row {
        front: "SELECT SUBSTR('a' ",
        rest: "FROM 1)",
    },
    Row {
        front: "SELECT convert ",
        rest: "1",
    },
    Row {
        front: "SELECT CONVERT(",
        rest: ")",
    },
    Row {
        front: "SELECT CONVERT('a'",
        rest: ", CHAR)",
    },
    Row {
        front: "SELECT CONVERT('a' USING ",
        rest: "'b')",
    },
    Row {
        front: "SELECT CONVERT('a' USING ",
        rest: "char)",
    },
    Row {
        front: "SELECT CAST(",
        rest: ")",
    },
    Row {
        front: "SELECT CAST('a'",
        rest: ")",
    },
    Row {
        front: "SELECT CAST('a'",
        rest: ", 'b')",
    },
    Row {
        front: "SELECT CAST('a' AS ",
        rest: "INT)",
    },
    Row {
        front: "SELECT CAST('a' AS CHAR",
        rest: "(5))",
    },
    Row {
        front: "SELECT CAST('a' AS CHAR ",
        rest: "SET latin1)",
    },
    Row {
        front: "SELECT CAST('a' AS CHAR CHARACTER ",
        rest: "latin1)",
    },
    Row {
        front: "SELECT CAST('a' AS CHAR CHARACTER SET ",
        rest: "'a')",
    },
    Row {
        front: "SELECT CAST('a' AS BINARY ",
        rest: "CHARACTER SET latin1)",
    },
    Row {
        front: "SELECT WEIGHT_STRING(",
        rest: "AS CHAR(1))",
    },
    Row {
        front: "SELECT WEIGHT_STRING('a' AS ",
        rest: "INT(1))",
    },
    Row {
        front: "SELECT WEIGHT_STRING('a' AS CHAR",
        rest: ")",
    },
    Row {
        front: "SELECT WEIGHT_STRING('a' AS CHAR(",
        rest: "))",
    },
    Row {
        front: "SELECT WEIGHT_STRING('a' AS CHAR(",
        rest: "'1'))",
    },
    Row {
        front: "SELECT WEIGHT_STRING('a', 'b' ",
        rest: "AS CHAR(1))",
    },
];

#[test]
fn no_call_goes_on_so(rt: HostRuntime) {
    for row in &CALLS {
        assert!(rt; is_stuck(rt.alloc(), row), "{row:?}");
    }
}
