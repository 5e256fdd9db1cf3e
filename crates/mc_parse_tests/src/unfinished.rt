use crate::row::{Row, is_stuck};

/// Statements to which a token is missing: the place is their end.
const UNFINISHED: [Row; 53] = [
    Row {
        front: "SELECT",
        rest: "",
    },
    Row {
        front: "EXPLAIN",
        rest: "",
    },
    Row {
        front: "EXPLAIN SELECT",
        rest: "",
    },
    Row {
        front: "SELECT DISTINCT",
        rest: "",
    },
    Row {
        front: "SELECT *",
        rest: "",
    },
    Row {
        front: "SELECT *,",
        rest: "",
    },
    Row {
        front: "SELECT 1,",
        rest: "",
    },
    Row {
        front: "SELECT 1 AS",
        rest: "",
    },
    Row {
        front: "SELECT 1 FROM",
        rest: "",
    },
    Row {
        front: "SELECT 1 FROM t WHERE",
        rest: "",
    },
    Row {
        front: "SELECT 1 FROM t GROUP",
        rest: "",
    },
    Row {
        front: "SELECT 1 FROM t GROUP BY",
        rest: "",
    },
    Row {
        front: "SELECT 1 FROM t GROUP BY a,",
        rest: "",
    },
    Row {
        front: "SELECT 1 ORDER",
        rest: "",
    },
    Row {
        front: "SELECT 1 ORDER BY",
        rest: "",
    },
    Row {
        front: "SELECT 1 ORDER BY a,",
        rest: "",
    },
    Row {
        front: "SELECT 1 LIMIT",
        rest: "",
    },
    Row {
        front: "SELECT 1 LIMIT 1,",
        rest: "",
    },
    Row {
        front: "SELECT 1 LIMIT 1 OFFSET",
        rest: "",
    },
    Row {
        front: "SELECT (",
        rest: "",
    },
    Row {
        front: "SELECT (1",
        rest: "",
    },
    Row {
        front: "SELECT 1 +",
        rest: "",
    },
    Row {
        front: "SELECT 1 - -",
        rest: "",
    },
    Row {
        front: "SELECT a %",
        rest: "",
    },
    Row {
        front: "SELECT a DIV",
        rest: "",
    },
    Row {
        front: "SELECT NOT",
        rest: "",
    },
    Row {
        front: "SELECT a =",
        rest: "",
    },
    Row {
        front: "SELECT a IS",
        rest: "",
    },
    Row {
        front: "SELECT a IS NOT",
        rest: "",
    },
    Row {
        front: "SELECT a NOT",
        rest: "",
    },
    Row {
        front: "SELECT a LIKE",
        rest: "",
    },
    Row {
        front: "SELECT 1 FROM t WHERE a LIKE b ESCAPE",
        rest: "",
    },
    Row {
        front: "SELECT a IN",
        rest: "",
    },
    Row {
        front: "SELECT a IN (",
        rest: "",
    },
    Row {
        front: "SELECT a IN (1",
        rest: "",
    },
    Row {
        front: "SELECT a IN (1,",
        rest: "",
    },
    Row {
        front: "SELECT a BETWEEN",
        rest: "",
    },
    Row {
        front: "SELECT a BETWEEN 1",
        rest: "",
    },
    Row {
        front: "SELECT a BETWEEN 1 AND",
        rest: "",
    },
    Row {
        front: "SELECT a COLLATE",
        rest: "",
    },
    Row {
        front: "SELECT a.",
        rest: "",
    },
    Row {
        front: "SELECT f(",
        rest: "",
    },
    Row {
        front: "SELECT f(1",
        rest: "",
    },
    Row {
        front: "SELECT f(1,",
        rest: "",
    },
    Row {
        front: "SELECT mod",
        rest: "",
    },
    Row {
        front: "SELECT CONVERT",
        rest: "",
    },
    Row {
        front: "SELECT CONVERT('a' USING",
        rest: "",
    },
    Row {
        front: "SELECT CAST('a' AS",
        rest: "",
    },
    Row {
        front: "SELECT CAST('a' AS CHAR CHARACTER",
        rest: "",
    },
    Row {
        front: "SELECT TRIM(BOTH",
        rest: "",
    },
    Row {
        front: "SELECT TRIM('a' FROM",
        rest: "",
    },
    Row {
        front: "SELECT SUBSTRING('a' FROM 1 FOR",
        rest: "",
    },
    Row {
        front: "SELECT WEIGHT_STRING('a' AS CHAR(1)",
        rest: "",
    },
];

#[test]
fn a_token_is_missing(rt: HostRuntime) {
    for row in &UNFINISHED {
        assert!(rt; is_stuck(rt.alloc(), row), "{row:?}");
    }
}
