use crate::row::{Comes, comes_of};

/// Statements that are read.
const READ: [&str; 33] = [
    "EXPLAIN SELECT DISTINCT *, a b FROM t WHERE a GROUP BY a, b ORDER BY a DESC, b LIMIT 2, 1",
    "SELECT 1 ORDER BY 1 ASC LIMIT 1 OFFSET 2",
    "SELECT 1 AS a, NULL b, 'x' = 'x  ' c",
    "SELECT `select`.`from` AS `as`",
    "SELECT offset offset FROM escape LIMIT 1 OFFSET 1",
    "SELECT a LIKE b escape",
    "SELECT a LIKE b ESCAPE 'x' escape",
    "SELECT a LIKE b AS escape",
    "SELECT NOT a NOT LIKE b ESCAPE '!' AND c",
    "SELECT (a LIKE b ESCAPE '!')",
    "SELECT a LIKE b OR c escape",
    "SELECT a NOT BETWEEN 1 AND 2 AND b",
    "SELECT a NOT IN (1, NOT b, (c))",
    "SELECT a IS NOT NULL XOR a IS NULL",
    "SELECT a <=> b, a != b, a <> b, a <= b, a >= b",
    "SELECT - - 1 - -1 * a DIV b % c MOD d",
    "SELECT MOD(a, b) MOD MOD(c, d)",
    "SELECT mod()",
    "SELECT 'a' 'b' \"c\" COLLATE BINARY COLLATE `latin1_bin`",
    "SELECT N'a' 'b', X'41', 0x4, _latin1'a' 'b', _utf8 X'41'",
    "SELECT _latin1, _latin1.a, a._latin1, _latin1(1)",
    "SELECT _nope, n, x, hex",
    "SELECT COUNT(*), COUNT(DISTINCT a OR b), COUNT(a, b), count",
    "SELECT TRIM(BOTH FROM a), TRIM(LEADING 'x' FROM a), TRIM('x' FROM a), TRIM(a)",
    "SELECT TRIM(), TRIM(a, b), trim.a",
    "SELECT SUBSTRING(a FROM 1), SUBSTRING(a FROM 1 FOR 2), SUBSTRING(a, 1, 2)",
    "SELECT WEIGHT_STRING(a AS CHAR(1)), WEIGHT_STRING(a AS BINARY(1)), WEIGHT_STRING(a)",
    "SELECT WEIGHT_STRING(), WEIGHT_STRING(a, b)",
    "SELECT CONVERT(a USING latin1), CONVERT(a USING BINARY), `convert`",
    "SELECT CAST(a AS CHAR), CAST(a AS CHAR CHARACTER SET BINARY), CAST(a AS BINARY), cast, cast.a",
    "SELECT f(), f(a), f(a, b OR c, (d))",
    "SELECT/**/1/* ; */FROM`t`-- t\n#\nWHERE 1",
    "SELECT 9223372036854775807",
];

#[test]
fn they_are_read(rt: HostRuntime) {
    for script in &READ {
        assert!(rt;
            comes_of(rt.alloc(), script.as_bytes()) == Comes::Tree,
            "{script}"
        );
    }
}
