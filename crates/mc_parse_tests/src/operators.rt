use crate::row::{Row, is_stuck};

/// Operators, and what they cannot be used on.
const OPERATORS: [Row; 49] = [
    Row {
        front: "SELECT 'a' = 'b' ",
        rest: "= 'c'",
    },
    Row {
        front: "SELECT a < b ",
        rest: "< c",
    },
    Row {
        front: "SELECT a IS NULL ",
        rest: "IS NULL",
    },
    Row {
        front: "SELECT a = b ",
        rest: "IS NULL",
    },
    Row {
        front: "SELECT a LIKE b ",
        rest: "LIKE c",
    },
    Row {
        front: "SELECT a IN (1) ",
        rest: "IN (2)",
    },
    Row {
        front: "SELECT a BETWEEN 1 AND 2 ",
        rest: "BETWEEN 3 AND 4",
    },
    Row {
        front: "SELECT a IN (",
        rest: ")",
    },
    Row {
        front: "SELECT a IN ",
        rest: "1",
    },
    Row {
        front: "SELECT a IN (1 ",
        rest: "2)",
    },
    Row {
        front: "SELECT a IN (1,",
        rest: ")",
    },
    Row {
        front: "SELECT a IN (",
        rest: "SELECT 1)",
    },
    Row {
        front: "SELECT a LIKE 'a' ESCAPE ",
        rest: "b",
    },
    Row {
        front: "SELECT a LIKE b ESCAPE 'x' ESCAPE ",
        rest: "'y'",
    },
    Row {
        front: "SELECT 1 FROM t WHERE a LIKE b ESCAPE ",
        rest: "5",
    },
    Row {
        front: "SELECT (a LIKE b ESCAPE",
        rest: ")",
    },
    Row {
        front: "SELECT f(a LIKE b ESCAPE",
        rest: ")",
    },
    Row {
        front: "SELECT a BETWEEN 1 ",
        rest: "OR 2",
    },
    Row {
        front: "SELECT a BETWEEN 1",
        rest: ", 2",
    },
    Row {
        front: "SELECT a BETWEEN 1 AND ",
        rest: "NOT 2",
    },
    Row {
        front: "SELECT a = ",
        rest: "NOT b",
    },
    Row {
        front: "SELECT a = ",
        rest: "= b",
    },
    Row {
        front: "SELECT a < ",
        rest: "> b",
    },
    Row {
        front: "SELECT a IS ",
        rest: "1",
    },
    Row {
        front: "SELECT a IS ",
        rest: "TRUE",
    },
    Row {
        front: "SELECT a IS NOT ",
        rest: "TRUE",
    },
    Row {
        front: "SELECT a NOT ",
        rest: "= b",
    },
    Row {
        front: "SELECT a NOT ",
        rest: "NULL",
    },
    Row {
        front: "SELECT a NOT ",
        rest: "IS NULL",
    },
    Row {
        front: "SELECT NOT ",
        rest: "AND a",
    },
    Row {
        front: "SELECT a AND ",
        rest: "OR b",
    },
    Row {
        front: "SELECT a OR ",
        rest: "XOR b",
    },
    Row {
        front: "SELECT a + ",
        rest: "* b",
    },
    Row {
        front: "SELECT a * ",
        rest: "+ b",
    },
    Row {
        front: "SELECT ",
        rest: "+ 1",
    },
    Row {
        front: "SELECT - ",
        rest: "NOT a",
    },
    Row {
        front: "SELECT a - ",
        rest: "NOT b",
    },
    Row {
        front: "SELECT a DIV ",
        rest: "DIV b",
    },
    Row {
        front: "SELECT a MOD MOD ",
        rest: "b",
    },
    Row {
        front: "SELECT (",
        rest: ")",
    },
    Row {
        front: "SELECT (1",
        rest: ", 2)",
    },
    Row {
        front: "SELECT (1 ",
        rest: "AS a)",
    },
    Row {
        front: "SELECT (a ",
        rest: "b)",
    },
    Row {
        front: "SELECT (1 ",
        rest: "FROM t)",
    },
    Row {
        front: "SELECT (",
        rest: "SELECT 1)",
    },
    Row {
        front: "SELECT NULL",
        rest: "()",
    },
    Row {
        front: "SELECT TRUE",
        rest: ".a",
    },
    Row {
        front: "SELECT 1",
        rest: "(2)",
    },
    Row {
        front: "SELECT 'a'",
        rest: "('b')",
    },
];

#[test]
fn no_operator_goes_on_so(rt: HostRuntime) {
    for row in &OPERATORS {
        assert!(rt; is_stuck(rt.alloc(), row), "{row:?}");
    }
}
