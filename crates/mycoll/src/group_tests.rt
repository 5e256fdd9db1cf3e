use crate::status::Status;
use crate::worked_files::{M, ends_so};

/// A script over all tables, and what is written.
struct Row {
    why: &'static str,
    script: &'static [u8],
    status: Status,
    written: &'static [u8],
}

const ROWS: [Row; 18] = [
    Row {
        why: "each class of names once, as its first row writes it",
        script: b"SELECT DISTINCT name FROM p ORDER BY name;",
        status: Status::Done,
        written: b"name\nNULL\nMeier\nMueller\nM\xc3\xbcller\n",
    },
    Row {
        why: "DISTINCT is before ORDER BY and LIMIT, and its first rows have the keys",
        script: b"SELECT DISTINCT name FROM p ORDER BY id DESC LIMIT 1, 2;",
        status: Status::Done,
        written: b"name\nMeier\nMueller\n",
    },
    Row {
        why: "no row is kept, and the one group has no sum",
        script: b"SELECT COUNT(*) AS a, SUM(id) AS b FROM p WHERE id > 9;",
        status: Status::Done,
        written: b"a\tb\n0\tNULL\n",
    },
    Row {
        why: "a table without rows",
        script: b"SELECT COUNT(*), MAX(name), 1 FROM z;",
        status: Status::Done,
        written: b"COUNT(*)\tMAX(name)\t1\n0\tNULL\t1\n",
    },
    Row {
        why: "GROUP BY over no row has no group",
        script: b"SELECT COUNT(*) FROM z GROUP BY name;",
        status: Status::Done,
        written: b"COUNT(*)\n",
    },
    Row {
        why: "groups in the order of their first rows, NULL one of them",
        script: b"SELECT name, COUNT(*), COUNT(name) FROM p GROUP BY name;",
        status: Status::Done,
        written: b"name\tCOUNT(*)\tCOUNT(name)\nM\xc3\xbcller\t3\t3\nMueller\t1\t1\nMeier\t1\t1\nNULL\t1\t0\n",
    },
    Row {
        why: "conditions before groups, and their order behind",
        script: b"SELECT name, COUNT(*) FROM p WHERE name LIKE 'M\xc3\xbc%' GROUP BY name ORDER BY name DESC;",
        status: Status::Done,
        written: b"name\tCOUNT(*)\nM\xc3\xbcller\t3\nMueller\t1\n",
    },
    Row {
        why: "each aggregate",
        script: b"SELECT COUNT(name) AS a, COUNT(*) AS b, COUNT(DISTINCT name) AS c, MIN(name) AS d, MAX(name) AS e, SUM(id) AS f FROM p;",
        status: Status::Done,
        written: b"a\tb\tc\td\te\tf\n5\t6\t3\tMeier\tM\xc3\xbcller\t21\n",
    },
    Row {
        why: "what is distinct goes by the collation",
        script: b"SELECT COUNT(DISTINCT name) a, COUNT(DISTINCT name COLLATE utf8mb4_bin) b FROM p;",
        status: Status::Done,
        written: b"a\tb\n3\t5\n",
    },
    Row {
        why: "groups by an aggregate's order, then by that of an alias",
        script: b"SELECT MIN(id) AS first, COUNT(*) FROM p GROUP BY name ORDER BY COUNT(*) DESC, first DESC;",
        status: Status::Done,
        written: b"first\tCOUNT(*)\n1\t3\n5\t1\n4\t1\n2\t1\n",
    },
    Row {
        why: "aggregates of one row without a table",
        script: b"SELECT COUNT(*) + 1, SUM(2), MIN('b'), CHARSET(COUNT(*));",
        status: Status::Done,
        written: b"COUNT(*) + 1\tSUM(2)\tMIN('b')\tCHARSET(COUNT(*))\n2\t2\tb\tutf8mb4\n",
    },
    Row {
        why: "an aggregate that no item keeps groups nevertheless",
        script: b"SELECT CHARSET(COUNT(*)) AS a FROM p;",
        status: Status::Done,
        written: b"a\nutf8mb4\n",
    },
    Row {
        why: "the whole of an expression of GROUP BY, and a part of it",
        script: b"SELECT LENGTH(name), LENGTH(name) * 2 AS b FROM p WHERE id < 4 GROUP BY LENGTH(name);",
        status: Status::Done,
        written: b"LENGTH(name)\tb\n7\t14\n",
    },
    Row {
        why: "a group is shown by its first row",
        script: b"SELECT HEX(name) AS a, COUNT(*) AS b FROM s WHERE name = 'ss' GROUP BY name;",
        status: Status::Done,
        written: b"a\tb\nC39F\t2\n",
    },
    Row {
        why: "a fault in a sum that nothing asks for",
        script: b"SELECT 0 AND SUM(id + 9223372036854775807) AS a FROM n;",
        status: Status::SomeRefused,
        written: b"ERROR 1690: BIGINT value is out of range\n",
    },
    Row {
        why: "a sum outside 64 bits",
        script: b"SELECT SUM(9223372036854775807) FROM n;",
        status: Status::SomeRefused,
        written: b"ERROR 1690: BIGINT value is out of range\n",
    },
    Row {
        why: "only the whole sum counts",
        script: b"SELECT SUM((id = 1) * 9223372036854775807 + (id = 2) - (id = 3) * 5) AS a FROM p WHERE id < 4;",
        status: Status::Done,
        written: b"a\n9223372036854775803\n",
    },
    Row {
        why: "a fault in a row that its group doesn't show",
        script: b"SELECT LENGTH(name) - 8 - 9223372036854775807 AS a FROM p WHERE name = 'muller' GROUP BY name;",
        status: Status::SomeRefused,
        written: b"ERROR 1690: BIGINT value is out of range\n",
    },
];

#[test]
fn groups_are_answered_as_worked_out(rt: HostRuntime) {
    for row in &ROWS {
        assert!(rt;
            ends_so(rt.alloc(), row.script, M, row.status, row.written).unwrap_or(false),
            "{}",
            row.why
        );
    }
}

/// A statement that is refused, and its line.
struct Refused {
    why: &'static str,
    script: &'static [u8],
    written: &'static [u8],
}

const REFUSED: [Refused; 18] = [
    Refused {
        why: "a column beside an aggregate",
        script: b"SELECT id, COUNT(*) FROM p",
        written: b"ERROR 1055: Column 'id' is not grouped\n",
    },
    Refused {
        why: "its table's name is not in the text",
        script: b"SELECT p.id FROM p GROUP BY name",
        written: b"ERROR 1055: Column 'id' is not grouped\n",
    },
    Refused {
        why: "another expression over the column of GROUP BY",
        script: b"SELECT name FROM p GROUP BY name COLLATE utf8mb4_bin",
        written: b"ERROR 1055: Column 'name' is not grouped\n",
    },
    Refused {
        why: "the column with its table's name is another expression",
        script: b"SELECT p.name FROM p GROUP BY name",
        written: b"ERROR 1055: Column 'name' is not grouped\n",
    },
    Refused {
        why: "a column of `*`",
        script: b"SELECT * FROM p GROUP BY name",
        written: b"ERROR 1055: Column 'id' is not grouped\n",
    },
    Refused {
        why: "a key",
        script: b"SELECT name FROM p GROUP BY name ORDER BY id",
        written: b"ERROR 1055: Column 'id' is not grouped\n",
    },
    Refused {
        why: "an aggregate in ORDER BY alone groups",
        script: b"SELECT name FROM p ORDER BY COUNT(*)",
        written: b"ERROR 1055: Column 'name' is not grouped\n",
    },
    Refused {
        why: "a column that isn't there comes first",
        script: b"SELECT nope FROM p GROUP BY name",
        written: b"ERROR 1054: Unknown column 'nope'\n",
    },
    Refused {
        why: "of two aggregates the inner one",
        script: b"SELECT SUM(COUNT(*)) FROM p",
        written: b"ERROR 9002: wrong argument for 'count'\n",
    },
    Refused {
        why: "an aggregate in WHERE",
        script: b"SELECT id FROM p WHERE MAX(id) > 1",
        written: b"ERROR 9002: wrong argument for 'max'\n",
    },
    Refused {
        why: "an aggregate in GROUP BY, behind an item that is like it",
        script: b"SELECT COUNT(*) FROM p GROUP BY COUNT(*)",
        written: b"ERROR 9002: wrong argument for 'count'\n",
    },
    Refused {
        why: "items come before GROUP BY",
        script: b"SELECT COUNT(*), nope FROM p GROUP BY COUNT(*)",
        written: b"ERROR 1054: Unknown column 'nope'\n",
    },
    Refused {
        why: "a sum of texts",
        script: b"SELECT SUM(name) FROM p",
        written: b"ERROR 9002: wrong argument for 'sum'\n",
    },
    Refused {
        why: "two arguments",
        script: b"SELECT MIN(id, id) FROM p",
        written: b"ERROR 1582: Incorrect parameter count in the call to native function 'min'\n",
    },
    Refused {
        why: "a number alone in GROUP BY",
        script: b"SELECT 1 FROM p GROUP BY (1)",
        written: b"ERROR 9002: wrong argument for 'group by'\n",
    },
    Refused {
        why: "a number alone in ORDER BY",
        script: b"SELECT 1 FROM p ORDER BY 1",
        written: b"ERROR 9002: wrong argument for 'order by'\n",
    },
    Refused {
        why: "GROUP BY before ORDER BY",
        script: b"SELECT 1 FROM p GROUP BY nope ORDER BY 1",
        written: b"ERROR 1054: Unknown column 'nope'\n",
    },
    Refused {
        why: "WHERE before GROUP BY",
        script: b"SELECT 1 FROM p WHERE COUNT(*) GROUP BY 1",
        written: b"ERROR 9002: wrong argument for 'count'\n",
    },
];

#[test]
fn what_is_not_grouped_is_refused(rt: HostRuntime) {
    for row in &REFUSED {
        assert!(rt;
            ends_so(rt.alloc(), row.script, M, Status::SomeRefused, row.written).unwrap_or(false),
            "{}",
            row.why
        );
    }
}
