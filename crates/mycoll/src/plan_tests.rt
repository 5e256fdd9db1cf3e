use crate::catalog_tests::file;
use crate::status::Status;
use crate::tests::Mark;
use crate::worked_files::{K4, K9, M, ends_so, rows_fetched, rows_fetched_of_all};
use mc_base::{List, MemFiles, NoMemory, Steps, Text};
use std::alloc::Global;

const HEADER: &[u8] = b"key\tconjunct\tintervals\tentries\n";

/// The rows of the tables times their indexes: six of `p`, seven of `s` and two of `n`.
const BUILT: u64 = 15;

/// A statement over all tables: what EXPLAIN shows of it, what it is answered with, how many rows
/// are fetched for that, and how many without indexes.
struct Row {
    why: &'static str,
    statement: &'static [u8],
    plan: &'static [u8],
    status: Status,
    written: &'static [u8],
    fetched: u64,
    scanned: u64,
}

const PLANS: [Row; 21] = [
    Row {
        why: "NULL has no interval, and two equal members have two",
        statement: b"SELECT id FROM n WHERE name IN ('x', NULL, 'x')",
        plan: b"nn\t1\t2\t1\n",
        status: Status::Done,
        written: b"id\n0\n",
        fetched: 1,
        scanned: 2,
    },
    Row {
        why: "both ends of BETWEEN count",
        statement: b"SELECT id FROM n WHERE name BETWEEN 'x' AND 'y'",
        plan: b"nn\t1\t1\t2\n",
        status: Status::Done,
        written: b"id\n1\n0\n",
        fetched: 2,
        scanned: 2,
    },
    Row {
        why: "an index serves the collation of its column alone",
        statement: b"SELECT id FROM n WHERE name BETWEEN 'x' AND 'y' COLLATE utf8mb4_0900_bin",
        plan: b"NULL\tNULL\tNULL\t2\n",
        status: Status::Done,
        written: b"id\n1\n0\n",
        fetched: 2,
        scanned: 2,
    },
    Row {
        why: "a first character whose letter weighs as two",
        statement: b"SELECT name FROM s WHERE name = '\xc3\x9f'",
        plan: b"s1\t1\t3\t3\n",
        status: Status::Done,
        written: b"name\n\xc3\x9f\nss\n",
        fetched: 3,
        scanned: 7,
    },
    Row {
        why: "first characters that are equal to the end stand below it",
        statement: b"SELECT name FROM s WHERE name < 'a'",
        plan: b"s1\t1\t1\t3\n",
        status: Status::Done,
        written: b"name\na\\t\na  \\t\n",
        fetched: 3,
        scanned: 7,
    },
    Row {
        why: "the second conjunct serves, and its index leaves out a row with a fault",
        statement: b"SELECT id FROM n WHERE id + 9223372036854775807 > 0 AND name = 'x'",
        plan: b"nn\t2\t1\t1\n",
        status: Status::Done,
        written: b"id\n0\n",
        fetched: 1,
        scanned: 2,
    },
    Row {
        why: "a fault in the first row ends the scan",
        statement: b"SELECT id FROM n WHERE id + 9223372036854775807 > 0",
        plan: b"NULL\tNULL\tNULL\t2\n",
        status: Status::SomeRefused,
        written: b"ERROR 1690: BIGINT value is out of range\n",
        fetched: 1,
        scanned: 1,
    },
    Row {
        why: "a pattern that begins without weights",
        statement: b"SELECT name FROM s WHERE name LIKE '\xc2\xad'",
        plan: b"NULL\tNULL\tNULL\t7\n",
        status: Status::Done,
        written: b"name\n",
        fetched: 7,
        scanned: 7,
    },
    Row {
        why: "a pattern's first characters",
        statement: b"SELECT name, COUNT(*) FROM p WHERE name LIKE 'M\xc3\xbc%' GROUP BY name ORDER BY name DESC",
        plan: b"name10\t1\t1\t4\n",
        status: Status::Done,
        written: b"name\tCOUNT(*)\nM\xc3\xbcller\t3\nMueller\t1\n",
        fetched: 4,
        scanned: 6,
    },
    Row {
        why: "ORDER BY reads all rows",
        statement: b"SELECT name FROM p ORDER BY name DESC",
        plan: b"NULL\tNULL\tNULL\t6\n",
        status: Status::Done,
        written: b"name\nM\xc3\xbcller\nm\xc3\xbcller\nMuller\nMueller\nMeier\nNULL\n",
        fetched: 6,
        scanned: 6,
    },
    Row {
        why: "a column under COLLATE is no column",
        statement: b"SELECT id FROM n WHERE name COLLATE utf8mb4_bin = 'x'",
        plan: b"NULL\tNULL\tNULL\t2\n",
        status: Status::Done,
        written: b"id\n0\n",
        fetched: 2,
        scanned: 2,
    },
    Row {
        why: "a literal under COLLATE is a constant, on either side",
        statement: b"SELECT id FROM n WHERE 'x' COLLATE utf8mb4_bin = name",
        plan: b"nn\t1\t1\t1\n",
        status: Status::Done,
        written: b"id\n0\n",
        fetched: 1,
        scanned: 2,
    },
    Row {
        why: "a literal that is below the column",
        statement: b"SELECT id FROM n WHERE 'x' < name",
        plan: b"nn\t1\t1\t2\n",
        status: Status::Done,
        written: b"id\n1\n",
        fetched: 2,
        scanned: 2,
    },
    Row {
        why: "an OR is one conjunct, and no condition",
        statement: b"SELECT id FROM n WHERE name = 'x' OR name = 'y'",
        plan: b"NULL\tNULL\tNULL\t2\n",
        status: Status::Done,
        written: b"id\n1\n0\n",
        fetched: 2,
        scanned: 2,
    },
    Row {
        why: "NOT IN is no condition",
        statement: b"SELECT id FROM n WHERE name NOT IN ('x')",
        plan: b"NULL\tNULL\tNULL\t2\n",
        status: Status::Done,
        written: b"id\n1\n",
        fetched: 2,
        scanned: 2,
    },
    Row {
        why: "equal or both NULL",
        statement: b"SELECT id FROM n WHERE name <=> 'x'",
        plan: b"NULL\tNULL\tNULL\t2\n",
        status: Status::Done,
        written: b"id\n0\n",
        fetched: 2,
        scanned: 2,
    },
    Row {
        why: "an end that is NULL",
        statement: b"SELECT id FROM n WHERE name BETWEEN 'y' AND NULL",
        plan: b"nn\t1\t0\t0\n",
        status: Status::Done,
        written: b"id\n",
        fetched: 0,
        scanned: 2,
    },
    Row {
        why: "TAB comes before the spaces that the first characters are padded with",
        statement: b"SELECT name FROM s WHERE name <= 'a\\t'",
        plan: b"s1\t1\t1\t3\n",
        status: Status::Done,
        written: b"name\na\\t\n",
        fetched: 3,
        scanned: 7,
    },
    Row {
        why: "members that have rows in common",
        statement: b"SELECT name FROM s WHERE name IN ('ss', '\xc3\x9f', 's', NULL)",
        plan: b"s1\t1\t8\t3\n",
        status: Status::Done,
        written: b"name\n\xc3\x9f\nss\ns\n",
        fetched: 3,
        scanned: 7,
    },
    Row {
        why: "no table",
        statement: b"SELECT 1",
        plan: b"NULL\tNULL\tNULL\t0\n",
        status: Status::Done,
        written: b"1\n1\n",
        fetched: 0,
        scanned: 0,
    },
    Row {
        why: "a table without rows and indexes",
        statement: b"SELECT name FROM z WHERE name = 'a'",
        plan: b"NULL\tNULL\tNULL\t0\n",
        status: Status::Done,
        written: b"name\n",
        fetched: 0,
        scanned: 0,
    },
];

/// What is written of a plan, and then of an answer.
fn written_of(alloc: Global, plan: &[u8], written: &[u8]) -> Result<Text, NoMemory> {
    let mut text = Text::from_slice(alloc, HEADER)?;
    text.extend_from_slice(plan)?;
    text.extend_from_slice(written)?;
    Ok(text)
}

/// A statement after EXPLAIN, and then without it.
fn both_of(alloc: Global, statement: &[u8]) -> Result<Text, NoMemory> {
    let mut text = Text::from_slice(alloc, b"EXPLAIN ")?;
    text.extend_from_slice(statement)?;
    text.push(b';')?;
    text.extend_from_slice(statement)?;
    Ok(text)
}

fn is_planned_so(alloc: Global, row: &Row) -> Result<bool, NoMemory> {
    let script = both_of(alloc, row.statement)?;
    let written = written_of(alloc, row.plan, row.written)?;
    let fetched = rows_fetched_of_all(
        alloc,
        true,
        script.as_slice(),
        row.status,
        written.as_slice(),
        &mut Steps::start(Mark),
    )?;
    let scanned = rows_fetched_of_all(
        alloc,
        false,
        row.statement,
        row.status,
        row.written,
        &mut Steps::start(Mark),
    )?;
    Ok(fetched == row.fetched.checked_add(BUILT) && scanned == Some(row.scanned))
}

#[test]
fn statements_are_planned_as_worked_out(rt: HostRuntime) {
    for row in &PLANS {
        assert!(rt;
            is_planned_so(rt.alloc(), row).unwrap_or(false),
            "{}",
            row.why
        );
    }
}

#[test]
fn the_indexes_are_built_once(rt: HostRuntime) {
    let none = b"".as_slice();
    let mut work = Steps::start(Mark);
    let fetched = rows_fetched_of_all(rt.alloc(), true, none, Status::Done, none, &mut work);
    assert_eq!(rt; fetched.unwrap_or(None), Some(BUILT));
    let scanned = rows_fetched_of_all(rt.alloc(), false, none, Status::Done, none, &mut work);
    assert_eq!(rt; scanned.unwrap_or(None), Some(0));
    assert_eq!(rt; work.count(), 0);
}

/// How many comparisons a run makes that shows the plan of a statement, if it shows this one.
fn compared(alloc: Global, statement: &[u8], plan: &[u8]) -> Result<Option<u64>, NoMemory> {
    let mut script = Text::from_slice(alloc, b"EXPLAIN ")?;
    script.extend_from_slice(statement)?;
    let written = written_of(alloc, plan, b"")?;
    let mut work = Steps::start(Mark);
    let fetched = rows_fetched_of_all(
        alloc,
        true,
        script.as_slice(),
        Status::Done,
        written.as_slice(),
        &mut work,
    )?;
    if fetched == Some(BUILT) {
        Ok(Some(work.count()))
    } else {
        Ok(None)
    }
}

// Five texts have three binary digits, and an interval has two ends.
#[test]
fn only_the_ends_of_intervals_are_sought(rt: HostRuntime) {
    let like = b"SELECT name FROM p WHERE name LIKE 'M\xc3\xbc%'".as_slice();
    let found = b"name10\t1\t1\t4\n".as_slice();
    let seeks = compared(rt.alloc(), like, found).unwrap_or(None);
    assert!(rt; seeks.is_some_and(|n| n > 0 && n <= 6));
    let all = b"SELECT name FROM p".as_slice();
    let scan = b"NULL\tNULL\tNULL\t6\n".as_slice();
    assert_eq!(rt; compared(rt.alloc(), all, scan).unwrap_or(None), Some(0));
}

/// A refused statement, and its line.
struct Refused {
    why: &'static str,
    script: &'static [u8],
    written: &'static [u8],
}

const REFUSED: [Refused; 3] = [
    Refused {
        why: "an illegal mix",
        script: b"EXPLAIN SELECT a = b FROM m",
        written: b"ERROR 1267: Illegal mix of collations (latin1_swedish_ci,IMPLICIT) and (latin1_german1_ci,IMPLICIT) for operation '='\n",
    },
    Refused {
        why: "no table of the name",
        script: b"EXPLAIN SELECT COUNT(*) FROM nope",
        written: b"ERROR 1146: Table 'nope' doesn't exist\n",
    },
    Refused {
        why: "a column beside an aggregate",
        script: b"EXPLAIN SELECT id, COUNT(*) FROM p",
        written: b"ERROR 1055: Column 'id' is not grouped\n",
    },
];

#[test]
fn statements_are_refused_under_explain(rt: HostRuntime) {
    for row in &REFUSED {
        assert!(rt;
            ends_so(rt.alloc(), row.script, M, Status::SomeRefused, row.written).unwrap_or(false),
            "{}",
            row.why
        );
    }
}

/// A statement over one table, by a collation whose element table has one more line: what EXPLAIN
/// shows of it, and what it is answered with; the rows times the indexes, and how many rows the
/// answer fetches.
struct OneTable {
    why: &'static str,
    catalog: &'static [u8],
    elements: &'static [u8],
    line: &'static [u8],
    rows: &'static [u8],
    statement: &'static [u8],
    plan: &'static [u8],
    written: &'static [u8],
    built: u64,
    fetched: u64,
}

const TWO_COLUMNS: &[u8] = b"table t t.csv
column a varchar 8 utf8mb4_bin
column b varchar 8 utf8mb4_bin
index i2 a
index i1 b
";

const ACCENTS: &[u8] = b"collation utf8mb4_0900_as_cs utf8mb4 uca900_as_cs k.txt
table t t.csv
column a varchar 8 utf8mb4_0900_as_cs
index t1 a 1
";

const THREE_CHARACTERS: &[u8] = b"collation utf8mb4_unicode_ci utf8mb4 uca400 k.txt
table t t.csv
column a varchar 8 utf8mb4_unicode_ci
index i3 a 3
";

const BYTES: &[u8] = b"table t t.csv
column a varbinary 4
index b1 a 1
";

const LATIN: &[u8] = b"table t t.csv
column a varchar 8 latin1_bin
index l1 a
";

const CONTRACTED: &[u8] = b"collation utf8mb4_kc_ci utf8mb4 uca400 k.txt
table c t.csv
column name varchar 8 utf8mb4_kc_ci
index c1 name 1
";

/// A contraction of c and h.
const CH: &[u8] = b"0063 0068 ; [.0E61.0020.0002.0063]\n";

const ONE_TABLE: [OneTable; 7] = [
    OneTable {
        why: "the first index in the catalog serves, and not the first conjunct",
        catalog: TWO_COLUMNS,
        elements: b"",
        line: b"",
        rows: b"y,x\ny,z\nq,x\n",
        statement: b"SELECT a, b FROM t WHERE b = 'x' AND a = 'y'",
        plan: b"i2\t2\t1\t2\n",
        written: b"a\tb\ny\tx\n",
        built: 6,
        fetched: 2,
    },
    OneTable {
        why: "a first byte",
        catalog: BYTES,
        elements: b"",
        line: b"",
        rows: b"6162\n61\n62\n",
        statement: b"SELECT a FROM t WHERE a = X'61'",
        plan: b"b1\t1\t1\t2\n",
        written: b"a\n0x61\n",
        built: 3,
        fetched: 2,
    },
    OneTable {
        why: "a constant in the set of its column",
        catalog: LATIN,
        elements: b"",
        line: b"",
        rows: b"\xc3\xa9\ne\n",
        statement: b"SELECT a FROM t WHERE a = '\xc3\xa9'",
        plan: b"l1\t1\t1\t1\n",
        written: b"a\n\xc3\xa9\n",
        built: 2,
        fetched: 1,
    },
    OneTable {
        why: "a first character without weights, and accents behind the letters",
        catalog: ACCENTS,
        elements: K9,
        line: b"",
        rows: b"\xc3\xa4\na\n\xc2\xad\xc3\xa4\nA\n\xc3\xa4b\n",
        statement: b"SELECT a FROM t WHERE a = '\xc3\xa4'",
        plan: b"t1\t1\t2\t5\n",
        written: b"a\n\xc3\xa4\n\xc2\xad\xc3\xa4\n",
        built: 5,
        fetched: 5,
    },
    OneTable {
        why: "a cut within a contraction without weights, behind a space",
        catalog: THREE_CHARACTERS,
        elements: K4,
        line: b"0063 0068 ; [.0000.0000.0000.0000]\n",
        rows: b"a ch\na\nac\nach\na c\n",
        statement: b"SELECT a FROM t WHERE a = 'a'",
        plan: b"i3\t1\t5\t5\n",
        written: b"a\na ch\na\nach\n",
        built: 5,
        fetched: 5,
    },
    OneTable {
        why: "a cut within a contraction",
        catalog: CONTRACTED,
        elements: K4,
        line: CH,
        rows: b"ch\ncz\nC\n",
        statement: b"SELECT name FROM c WHERE name = 'ch'",
        plan: b"c1\t1\t5\t3\n",
        written: b"name\nch\n",
        built: 3,
        fetched: 3,
    },
    OneTable {
        why: "a pattern that begins where contractions do",
        catalog: CONTRACTED,
        elements: K4,
        line: CH,
        rows: b"ch\ncz\nC\n",
        statement: b"SELECT name FROM c WHERE name LIKE 'C%'",
        plan: b"NULL\tNULL\tNULL\t3\n",
        written: b"name\nch\ncz\nC\n",
        built: 3,
        fetched: 3,
    },
];

/// The files of a run over one table.
fn files_of(alloc: Global, row: &OneTable, script: &[u8]) -> Result<MemFiles, NoMemory> {
    let mut elements = Text::from_slice(alloc, row.elements)?;
    elements.extend_from_slice(row.line)?;
    let mut files = List::new(alloc);
    files.push(file(alloc, b"cat.txt", row.catalog)?)?;
    files.push(file(alloc, b"s.sql", script)?)?;
    files.push(file(alloc, b"k.txt", elements.as_slice())?)?;
    files.push(file(alloc, b"t.csv", row.rows)?)?;
    Ok(MemFiles::new(files, List::new(alloc)))
}

fn is_found_so(alloc: Global, row: &OneTable) -> Result<bool, NoMemory> {
    let script = both_of(alloc, row.statement)?;
    let written = written_of(alloc, row.plan, row.written)?;
    let mut files = files_of(alloc, row, script.as_slice())?;
    let mut work = Steps::start(Mark);
    let fetched = rows_fetched(
        alloc,
        &mut files,
        Status::Done,
        written.as_slice(),
        &mut work,
    )?;
    Ok(fetched == row.fetched.checked_add(row.built))
}

#[test]
fn rows_are_found_through_first_characters(rt: HostRuntime) {
    for row in &ONE_TABLE {
        assert!(rt;
            is_found_so(rt.alloc(), row).unwrap_or(false),
            "{}",
            row.why
        );
    }
}

/// Whether EXPLAIN shows this of a constant of so many letters, in an index of one character by a
/// collation with a contraction.
fn has_plan(alloc: Global, letters: usize, plan: &[u8]) -> Result<bool, NoMemory> {
    let constant = vec![in alloc; b'a'; letters]?;
    let mut script = Text::from_slice(alloc, b"EXPLAIN SELECT name FROM c WHERE name = '")?;
    script.extend_from_slice(constant.as_slice())?;
    script.push(b'\'')?;
    let mut files = List::new(alloc);
    let mut elements = Text::from_slice(alloc, K4)?;
    elements.extend_from_slice(CH)?;
    files.push(file(alloc, b"cat.txt", CONTRACTED)?)?;
    files.push(file(alloc, b"s.sql", script.as_slice())?)?;
    files.push(file(alloc, b"k.txt", elements.as_slice())?)?;
    files.push(file(alloc, b"t.csv", b"ch\ncz\nC\n")?)?;
    let mut files = MemFiles::new(files, List::new(alloc));
    let written = written_of(alloc, plan, b"")?;
    let mut work = Steps::start(Mark);
    let fetched = rows_fetched(
        alloc,
        &mut files,
        Status::Done,
        written.as_slice(),
        &mut work,
    )?;
    Ok(fetched == Some(3))
}

// Each letter has a candidate, and one more with the tail; so has none; one more interval is that of
// the lists that go on behind the constant's.
#[test]
fn a_plan_has_at_most_4096_intervals(rt: HostRuntime) {
    let most = b"c1\t1\t4095\t3\n".as_slice();
    let none = b"NULL\tNULL\tNULL\t3\n".as_slice();
    assert!(rt; has_plan(rt.alloc(), 2046, most).unwrap_or(false));
    assert!(rt; has_plan(rt.alloc(), 2047, none).unwrap_or(false));
}
