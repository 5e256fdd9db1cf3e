use crate::status::Status;
use crate::worked_files::{M, ends_so};
use mc_base::NoMemory;
use std::alloc::Global;

/// A script over all collations and tables, and what is written.
struct Row {
    why: &'static str,
    script: &'static [u8],
    status: Status,
    written: &'static [u8],
}

const WORKED: [Row; 20] = [
    Row {
        why: "weight strings of so many characters, and so many bytes",
        script: b"SELECT HEX(WEIGHT_STRING(_latin1'ab' AS CHAR(4))) AS a, HEX(WEIGHT_STRING(_latin1'ab' AS BINARY(4))) AS b;",
        status: Status::Done,
        written: b"a\tb\n41422020\t61620000\n",
    },
    Row {
        why: "the default collations of two sets",
        script: b"SELECT WEIGHT_STRING('AB') AS w, WEIGHT_STRING('a' COLLATE utf8mb4_0900_as_cs) AS v;",
        status: Status::Done,
        written: b"w\tv\n0x1C471C60\t0x1C470000002000000002\n",
    },
    Row {
        why: "a weight that no line lists, after version 4",
        script: b"SELECT HEX(WEIGHT_STRING(_ucs2 X'04CF' COLLATE ucs2_unicode_ci)) AS w;",
        status: Status::Done,
        written: b"w\nFBC084CF\n",
    },
    Row {
        why: "weights that no line lists, after version 9: two ideographs, a range of the file, a syllable",
        script: b"SELECT HEX(WEIGHT_STRING('\xe4\xb8\x80')) a, HEX(WEIGHT_STRING('\xf0\xa0\x80\x80')) b, HEX(WEIGHT_STRING('\xf0\x97\x80\x80')) c, HEX(WEIGHT_STRING('\xea\xb0\x80')) d;",
        status: Status::Done,
        written: b"a\tb\tc\td\nFB40CE00\tFB848000\tFB008000\tFBC09100FBC09161\n",
    },
    Row {
        why: "one letter as two, LIKE by characters, one letter as one, one letter as two",
        script: b"SELECT _latin1 X'E4' COLLATE latin1_german2_ci = _latin1'ae' AS e, _latin1 X'E4' COLLATE latin1_german2_ci LIKE _latin1'ae' AS l, '\xc3\x9f' = 's' COLLATE utf8mb4_general_ci AS g, '\xc3\x9f' = 'ss' COLLATE utf8mb4_unicode_ci AS u;",
        status: Status::Done,
        written: b"e\tl\tg\tu\n1\t0\t1\t1\n",
    },
    Row {
        why: "a soft hyphen has no weights",
        script: b"SELECT _utf8mb4 X'63C2AD68' COLLATE utf8mb4_unicode_ci = 'ch' AS x;",
        status: Status::Done,
        written: b"x\n1\n",
    },
    Row {
        why: "two columns of one set and level",
        script: b"SELECT a = b FROM m;",
        status: Status::SomeRefused,
        written: b"ERROR 1267: Illegal mix of collations (latin1_swedish_ci,IMPLICIT) and (latin1_german1_ci,IMPLICIT) for operation '='\n",
    },
    Row {
        why: "CONCAT brings them together without a collation",
        script: b"SELECT COERCIBILITY(CONCAT(a, b)) AS k, COLLATION(CONCAT(a, b)) AS l, COERCIBILITY(CONCAT(a, b, _latin1'x' COLLATE latin1_bin)) AS n FROM m;",
        status: Status::Done,
        written: b"k\tl\tn\n1\tlatin1_bin\t0\n",
    },
    Row {
        why: "and a comparison takes none as none",
        script: b"SELECT CONCAT(a, b) = 'x' FROM m;",
        status: Status::SomeRefused,
        written: b"ERROR 1267: Illegal mix of collations (latin1_bin,NONE) and (utf8mb4_0900_ai_ci,COERCIBLE) for operation '='\n",
    },
    Row {
        why: "latin1 takes ascii, and a literal that fits it",
        script: b"SELECT CONCAT(a, c) AS x, COLLATION(CONCAT(a, c)) AS y, a = '\xc3\xa9' AS z FROM m;",
        status: Status::Done,
        written: b"x\ty\tz\naa\tlatin1_swedish_ci\t0\n",
    },
    Row {
        why: "and no literal that doesn't fit it",
        script: b"SELECT a = '\xd1\x8f' FROM m;",
        status: Status::SomeRefused,
        written: b"ERROR 1267: Illegal mix of collations (latin1_swedish_ci,IMPLICIT) and (utf8mb4_0900_ai_ci,COERCIBLE) for operation '='\n",
    },
    Row {
        why: "utf8mb4 takes utf8mb3",
        script: b"SELECT d = f AS x FROM m;",
        status: Status::Done,
        written: b"x\n1\n",
    },
    Row {
        why: "two Unicode sets of which neither takes the other",
        script: b"SELECT e = f FROM m;",
        status: Status::SomeRefused,
        written: b"ERROR 1267: Illegal mix of collations (utf16_bin,IMPLICIT) and (utf8mb4_unicode_ci,IMPLICIT) for operation '='\n",
    },
    Row {
        why: "a mix of three",
        script: b"SELECT CONCAT(a, e, f) FROM m;",
        status: Status::SomeRefused,
        written: b"ERROR 1270: Illegal mix of collations (latin1_swedish_ci,IMPLICIT), (utf16_bin,IMPLICIT), (utf8mb4_unicode_ci,IMPLICIT) for operation 'concat'\n",
    },
    Row {
        why: "a mix of four",
        script: b"SELECT a IN (b, e, f) FROM m;",
        status: Status::SomeRefused,
        written: b"ERROR 1271: Illegal mix of collations for operation 'in'\n",
    },
    Row {
        why: "ASCII bytes are a text of any set",
        script: b"SELECT a = X'41' AS x FROM m;",
        status: Status::Done,
        written: b"x\n1\n",
    },
    Row {
        why: "other bytes are none",
        script: b"SELECT a = X'FF' FROM m;SELECT a = CONCAT(X'41', '\xc3\xa9') FROM m;",
        status: Status::SomeRefused,
        written: b"ERROR 1267: Illegal mix of collations (latin1_swedish_ci,IMPLICIT) and (binary,COERCIBLE) for operation '='\nERROR 1267: Illegal mix of collations (latin1_swedish_ci,IMPLICIT) and (binary,COERCIBLE) for operation '='\n",
    },
    Row {
        why: "string functions",
        script: b"SELECT CONCAT(1, 2) AS a, COERCIBILITY(CONCAT(1, 2)) AS b, CONCAT_WS(',', 'x', NULL, 'y') AS c, SUBSTRING('abcd', -3, 2) AS d, TRIM('  x ') AS e, LPAD('7', 3, '0') AS f, REVERSE('a\xc3\xb1') AS g, REPLACE('aXbx', 'x', '-') AS h, STRCMP('a', 'B') AS i;",
        status: Status::Done,
        written: b"a\tb\tc\td\te\tf\tg\th\ti\n12\t4\tx,y\tbc\tx\t007\t\xc3\xb1a\taXb-\t-1\n",
    },
    Row {
        why: "the greatest string, and one that is longer",
        script: b"SELECT LENGTH(REPEAT('a', 1048576)) AS n, REPEAT('a', 1048577) AS r;",
        status: Status::Done,
        written: b"n\tr\n1048576\tNULL\n",
    },
    Row {
        why: "a number beside a string",
        script: b"SELECT 'a' = 1;",
        status: Status::SomeRefused,
        written: b"ERROR 9002: wrong argument for '='\n",
    },
];

#[test]
fn the_worked_examples_are_answered(rt: HostRuntime) {
    for row in &WORKED {
        assert!(rt;
            ends_so(rt.alloc(), row.script, M, row.status, row.written).unwrap_or(false),
            "{}",
            row.why
        );
    }
}
