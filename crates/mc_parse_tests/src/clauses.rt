use crate::row::{Row, is_stuck};

/// Clauses, items and aliases where they cannot stand.
const CLAUSES: [Row; 42] = [
    Row {
        front: "",
        rest: "1",
    },
    Row {
        front: "",
        rest: "FROM t",
    },
    Row {
        front: "SELECT ",
        rest: "FROM t",
    },
    Row {
        front: "SELECT ",
        rest: ", 1",
    },
    Row {
        front: "SELECT 1 ",
        rest: "SELECT 2",
    },
    Row {
        front: "EXPLAIN ",
        rest: "EXPLAIN SELECT 1",
    },
    Row {
        front: "SELECT ",
        rest: "EXPLAIN 1",
    },
    Row {
        front: "SELECT DISTINCT ",
        rest: "DISTINCT a",
    },
    Row {
        front: "SELECT * ",
        rest: "LIMIT 1",
    },
    Row {
        front: "SELECT * ",
        rest: "WHERE a",
    },
    Row {
        front: "SELECT 1, ",
        rest: "* FROM t",
    },
    Row {
        front: "SELECT * ",
        rest: "a FROM t",
    },
    Row {
        front: "SELECT * ",
        rest: "1 FROM t",
    },
    Row {
        front: "SELECT 1 ",
        rest: "WHERE a",
    },
    Row {
        front: "SELECT 1 ",
        rest: "GROUP BY a",
    },
    Row {
        front: "SELECT 1 FROM ",
        rest: "1",
    },
    Row {
        front: "SELECT 1 FROM ",
        rest: "'t'",
    },
    Row {
        front: "SELECT 1 FROM ",
        rest: "(t)",
    },
    Row {
        front: "SELECT 1 FROM t",
        rest: ", u",
    },
    Row {
        front: "SELECT 1 FROM t ",
        rest: "u",
    },
    Row {
        front: "SELECT 1 FROM t",
        rest: ".u",
    },
    Row {
        front: "SELECT 1 FROM t GROUP ",
        rest: "a",
    },
    Row {
        front: "SELECT 1 FROM t GROUP BY a ",
        rest: "WHERE b",
    },
    Row {
        front: "SELECT 1 FROM t GROUP BY a ",
        rest: "b",
    },
    Row {
        front: "SELECT 1 FROM t WHERE a ",
        rest: "b",
    },
    Row {
        front: "SELECT 1 ORDER BY a ",
        rest: "FROM t",
    },
    Row {
        front: "SELECT 1 ORDER ",
        rest: "a",
    },
    Row {
        front: "SELECT 1 ORDER BY a ",
        rest: "b",
    },
    Row {
        front: "SELECT 1 ORDER BY a ",
        rest: "AS b",
    },
    Row {
        front: "SELECT 1 ORDER BY a ASC ",
        rest: "DESC",
    },
    Row {
        front: "SELECT 1 LIMIT 1 ",
        rest: "ORDER BY a",
    },
    Row {
        front: "SELECT 1 LIMIT ",
        rest: "-1",
    },
    Row {
        front: "SELECT 1 LIMIT ",
        rest: "a",
    },
    Row {
        front: "SELECT 1 LIMIT ",
        rest: "'1'",
    },
    Row {
        front: "SELECT 1 LIMIT ",
        rest: "(1)",
    },
    Row {
        front: "SELECT 1 LIMIT 1, 2",
        rest: ", 3",
    },
    Row {
        front: "SELECT 1 LIMIT 1 OFFSET ",
        rest: "a",
    },
    Row {
        front: "SELECT 1 LIMIT 1 OFFSET 2 ",
        rest: "OFFSET 3",
    },
    Row {
        front: "SELECT 1 LIMIT 1, 2 ",
        rest: "OFFSET 3",
    },
    Row {
        front: "SELECT 1 HAVING ",
        rest: "a",
    },
    Row {
        front: "SELECT 1 UNION ",
        rest: "SELECT 2",
    },
    Row {
        front: "SELECT 1",
        rest: ")",
    },
];

#[test]
fn no_clause_goes_on_so(rt: HostRuntime) {
    for row in &CLAUSES {
        assert!(rt; is_stuck(rt.alloc(), row), "{row:?}");
    }
}
