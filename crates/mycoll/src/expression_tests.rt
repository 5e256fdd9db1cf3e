use crate::script_tests::is_answered;
use crate::status::Status;
use mc_base::{NoMemory, Text};
use std::alloc::Global;

/// A script that is answered without a catalog, and what is written.
struct Row {
    why: &'static str,
    script: &'static [u8],
    status: Status,
    written: &'static [u8],
}

const EXPRESSIONS: [Row; 15] = [
    Row {
        why: "each collation pads or doesn't",
        script: b"SELECT 'a' = 'a  ' COLLATE utf8mb4_bin AS x, 'a' = 'a  ' COLLATE utf8mb4_0900_bin AS y;",
        status: Status::Done,
        written: b"x\ty\n1\t0\n",
    },
    Row {
        why: "a Unicode set takes latin1",
        script: b"SELECT _latin1'a' = _utf16 X'0061' AS x;",
        status: Status::Done,
        written: b"x\n1\n",
    },
    Row {
        why: "two Unicode sets and no ASCII",
        script: b"SELECT _utf8mb4 X'D18F' = _utf16 X'044F' AS x;",
        status: Status::SomeRefused,
        written: b"ERROR 1267: Illegal mix of collations (utf8mb4_bin,COERCIBLE) and (utf16_bin,COERCIBLE) for operation '='\n",
    },
    Row {
        why: "an explicit collation decides",
        script: b"SELECT COLLATION(CONCAT(_latin1'a' COLLATE latin1_bin, 'b')) AS x;",
        status: Status::Done,
        written: b"x\nlatin1_bin\n",
    },
    Row {
        why: "NULL is binary, and numbers as texts are literals",
        script: b"SELECT CHARSET(NULL) AS x, COERCIBILITY(CONCAT(1, 2)) AS y;",
        status: Status::Done,
        written: b"x\ty\nbinary\t4\n",
    },
    Row {
        why: "levels of coercibility",
        script: b"SELECT COERCIBILITY('a' COLLATE utf8mb4_bin) AS a, COERCIBILITY(VERSION()) AS b, COERCIBILITY('a') AS c, COERCIBILITY(1000) AS d, COERCIBILITY(NULL) AS e;",
        status: Status::Done,
        written: b"a\tb\tc\td\te\n0\t3\t4\t5\t6\n",
    },
    Row {
        why: "bytes in several sets",
        script: b"SELECT HEX('\xc3\x9f') AS a, HEX(CONVERT('\xc3\xa9\xe2\x82\xac' USING latin1)) AS b, HEX(CONVERT('\xf0\x9f\x98\x80' USING utf16)) AS c, HEX(CONVERT('\xf0\x9f\x98\x80' USING ucs2)) AS d, CONVERT(X'FF' USING utf8mb4) AS e;",
        status: Status::Done,
        written: b"a\tb\tc\td\te\nC39F\tE980\tD83DDE00\t003F\tNULL\n",
    },
    Row {
        why: "numbers and truth values",
        script: b"SELECT 7 DIV 2 AS a, -7 % 3 AS b, 1 DIV 0 AS c, NULL AND 0 AS d, NULL OR 1 AS e, 2 IN (1, NULL) AS f;",
        status: Status::Done,
        written: b"a\tb\tc\td\te\tf\n3\t-1\tNULL\t0\t1\tNULL\n",
    },
    Row {
        why: "a false AND and a true OR outweigh a fault",
        script: b"SELECT 0 AND 9223372036854775807 + 1 AS a, 1 OR 9223372036854775807 + 1 AS b;",
        status: Status::Done,
        written: b"a\tb\n0\t1\n",
    },
    Row {
        why: "and NULL doesn't",
        script: b"SELECT NULL AND 9223372036854775807 + 1 AS a;",
        status: Status::SomeRefused,
        written: b"ERROR 1690: BIGINT value is out of range\n",
    },
    Row {
        why: "characters, not bytes",
        script: b"SELECT LEFT('a\xc3\xb1b', 2) AS a, RIGHT('a\xc3\xb1b', 2) AS b, RPAD('7', 3, 'xy') AS c;",
        status: Status::Done,
        written: b"a\tb\tc\na\xc3\xb1\t\xc3\xb1b\t7xy\n",
    },
    Row {
        why: "LIKE goes back to the last percent sign",
        script: b"SELECT 'abcabd' LIKE '%abd' AS a, '' LIKE '%' AS b, '' LIKE '_' AS c, NULL LIKE 'a' AS d;",
        status: Status::Done,
        written: b"a\tb\tc\td\n1\t1\t0\tNULL\n",
    },
    Row {
        why: "escapes of LIKE, and a space at a pattern's end",
        script: b"SELECT 'a\\\\' LIKE 'a\\\\' AS a, 'a%' LIKE 'a\\%' AS b, 'ab' LIKE 'a\\%' AS c, 'a%' LIKE 'a\\%' ESCAPE '' AS d, 'ab' LIKE 'a_ ' AS e;",
        status: Status::Done,
        written: b"a\tb\tc\td\te\n1\t1\t0\t0\t0\n",
    },
    Row {
        why: "no set of the name",
        script: b"SELECT CONVERT('a' USING foo);",
        status: Status::SomeRefused,
        written: b"ERROR 1115: Unknown character set: 'foo'\n",
    },
    Row {
        why: "each order among its items, by an alias too",
        script: b"SELECT 2 AS a ORDER BY a DESC LIMIT 1 OFFSET 0;SELECT 1 LIMIT 0",
        status: Status::Done,
        written: b"a\n2\n1\n",
    },
];

fn is_answered_so(alloc: Global, row: &Row) -> Result<bool, NoMemory> {
    let script = Text::from_slice(alloc, row.script)?;
    is_answered(alloc, script, row.status, row.written)
}

#[test]
fn expressions_have_their_values(rt: HostRuntime) {
    for row in &EXPRESSIONS {
        assert!(rt;
            is_answered_so(rt.alloc(), row).unwrap_or(false),
            "{}",
            row.why
        );
    }
}
