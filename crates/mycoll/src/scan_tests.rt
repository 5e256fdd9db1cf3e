use crate::catalog_tests::file;
use crate::run::run;
use crate::status::Status;
use crate::tests::{status_of, words_of};
use crate::worked_files::{M, ends_so};
use mc_base::{List, MemFiles, MemSink, NoMemory, Steps, Text};
use std::alloc::Global;

/// A script over all tables, and what is written.
struct Row {
    why: &'static str,
    script: &'static [u8],
    status: Status,
    written: &'static [u8],
}

const SCANS: [Row; 14] = [
    Row {
        why: "a table without rows",
        script: b"SELECT * FROM z;",
        status: Status::Done,
        written: b"name\n",
    },
    Row {
        why: "all columns, within a limit",
        script: b"SELECT * FROM p LIMIT 1, 2;",
        status: Status::Done,
        written: b"id\tname\n2\tMueller\n3\tm\xc3\xbcller\n",
    },
    Row {
        why: "a refused statement between two leaves both alike",
        script: b"SELECT * FROM p LIMIT 1;SELECT nope FROM p;SELECT * FROM p LIMIT 1",
        status: Status::SomeRefused,
        written: b"id\tname\n1\tM\xc3\xbcller\nERROR 1054: Unknown column 'nope'\nid\tname\n1\tM\xc3\xbcller\n",
    },
    Row {
        why: "a letter that weighs as two",
        script: b"SELECT name FROM s WHERE name = '\xc3\x9f';",
        status: Status::Done,
        written: b"name\n\xc3\x9f\nss\n",
    },
    Row {
        why: "TAB comes before the spaces that texts are padded with",
        script: b"SELECT name FROM s WHERE name < 'a';",
        status: Status::Done,
        written: b"name\na\\t\na  \\t\n",
    },
    Row {
        why: "a fault counts only in rows that no other conjunct rejects",
        script: b"SELECT id FROM n WHERE id + 9223372036854775807 > 0 AND name = 'x';",
        status: Status::Done,
        written: b"id\n0\n",
    },
    Row {
        why: "a fault in a row that none rejects",
        script: b"SELECT id FROM n WHERE id + 9223372036854775807 > 0;",
        status: Status::SomeRefused,
        written: b"ERROR 1690: BIGINT value is out of range\n",
    },
    Row {
        why: "NULL rejects a row, and a fault beside it counts for nothing",
        script: b"SELECT id FROM n WHERE id + 9223372036854775807 > 0 AND NULL;",
        status: Status::Done,
        written: b"id\n",
    },
    Row {
        why: "a fault in a row that isn't shown",
        script: b"SELECT id + 9223372036854775807 FROM n LIMIT 0;",
        status: Status::SomeRefused,
        written: b"ERROR 1690: BIGINT value is out of range\n",
    },
    Row {
        why: "descending, rows of one class in the table's order, NULL last",
        script: b"SELECT name FROM p ORDER BY name DESC;",
        status: Status::Done,
        written: b"name\nM\xc3\xbcller\nm\xc3\xbcller\nMuller\nMueller\nMeier\nNULL\n",
    },
    Row {
        why: "all columns and one more, by two keys, without the first row",
        script: b"SELECT *, id AS n FROM p ORDER BY name DESC, id DESC LIMIT 2 OFFSET 1;",
        status: Status::Done,
        written: b"id\tname\tn\n3\tm\xc3\xbcller\t3\n1\tM\xc3\xbcller\t1\n",
    },
    Row {
        why: "a fault in a key",
        script: b"SELECT id FROM n ORDER BY id + 9223372036854775807;",
        status: Status::SomeRefused,
        written: b"ERROR 1690: BIGINT value is out of range\n",
    },
    Row {
        why: "a column of another table",
        script: b"SELECT p.id, m.a FROM p;",
        status: Status::SomeRefused,
        written: b"ERROR 1054: Unknown column 'a'\n",
    },
    Row {
        why: "no table of the name",
        script: b"SELECT nope FROM nope;",
        status: Status::SomeRefused,
        written: b"ERROR 1146: Table 'nope' doesn't exist\n",
    },
];

#[test]
fn tables_are_scanned_as_worked_out(rt: HostRuntime) {
    for row in &SCANS {
        assert!(rt;
            ends_so(rt.alloc(), row.script, M, row.status, row.written).unwrap_or(false),
            "{}",
            row.why
        );
    }
}

#[test]
fn a_character_that_a_column_lacks_refuses_its_file(rt: HostRuntime) {
    let mixed = b"\xd1\x8f,a,a,a,a,a\n".as_slice();
    let wanted = b"refused m.csv Unfit 1\n".as_slice();
    let script = b"SELECT 1".as_slice();
    assert!(rt; ends_so(rt.alloc(), script, mixed, Status::FilesRefused, wanted).unwrap_or(false));
}

/// Whether a table of one text column of 4,096 characters is loaded so.
fn loads_so(alloc: Global, rows: Text, status: Status, written: &[u8]) -> Result<bool, NoMemory> {
    let words = words_of(alloc, &[b"cat.txt", b"s.sql"])?;
    let catalog = b"table t t.csv\ncolumn a varchar 4096 utf8mb4_bin\n".as_slice();
    let mut files = List::new(alloc);
    files.push(file(alloc, b"cat.txt", catalog)?)?;
    files.push(file(alloc, b"s.sql", b"SELECT LENGTH(a) AS n FROM t")?)?;
    files.push((Text::from_slice(alloc, b"t.csv")?, rows))?;
    let mut files = MemFiles::new(files, List::new(alloc));
    let mut out = MemSink::new(alloc, List::new(alloc));
    let ends = status_of(alloc, words.as_slice(), &mut files, &mut out);
    Ok(ends == status && out.written().as_slice() == written)
}

/// A record `b`, and one of so many `a`.
fn two_records(alloc: Global, count: usize) -> Result<Text, NoMemory> {
    let long = vec![in alloc; b'a'; count]?;
    let mut rows = Text::from_slice(alloc, b"b\n")?;
    rows.extend_from_slice(long.as_slice())?;
    Ok(rows)
}

fn long_cells_are_loaded(alloc: Global) -> Result<bool, NoMemory> {
    let fits = two_records(alloc, 4096)?;
    let passes = two_records(alloc, 4097)?;
    let refused = b"refused t.csv TooLong 2\n".as_slice();
    Ok(
        loads_so(alloc, fits, Status::Done, b"n\n1\n4096\n")?
            && loads_so(alloc, passes, Status::FilesRefused, refused)?,
    )
}

#[test]
fn a_cell_has_as_many_characters_as_its_column_takes(rt: HostRuntime) {
    assert!(rt; long_cells_are_loaded(rt.alloc()).unwrap_or(false));
}

/// Whether a run whose reading of a table's file fails at this call ends with nothing written.
fn is_unread(alloc: Global, call: u64) -> Result<bool, NoMemory> {
    let words = words_of(alloc, &[b"cat.txt", b"s.sql"])?;
    let mut files = List::new(alloc);
    files.push(file(alloc, b"cat.txt", b"table t t.csv\ncolumn a bigint\n")?)?;
    files.push(file(alloc, b"s.sql", b"SELECT a FROM t")?)?;
    files.push(file(alloc, b"t.csv", b"1\n")?)?;
    let mut files = MemFiles::new(files, List::from_slice(alloc, &[call])?);
    let mut out = MemSink::new(alloc, List::new(alloc));
    let ends = status_of(alloc, words.as_slice(), &mut files, &mut out);
    Ok(ends == Status::ReadFault && out.written().is_empty())
}

// The catalog and the script take three calls each: to open, to read, and to see the end.
#[test]
fn a_failing_read_of_a_table_writes_nothing(rt: HostRuntime) {
    for call in 6..9 {
        assert!(rt; is_unread(rt.alloc(), call).unwrap_or(false));
    }
}

#[derive(Drop)]
struct Mark;

/// How many rows a script fetches from a table of three, and whether LIKE compared characters.
fn fetched(alloc: Global, script: &[u8]) -> Result<(u64, bool), NoMemory> {
    let words = words_of(alloc, &[b"cat.txt", b"s.sql"])?;
    let mut files = List::new(alloc);
    files.push(file(alloc, b"cat.txt", b"table t t.csv\ncolumn a bigint\n")?)?;
    files.push(file(alloc, b"s.sql", script)?)?;
    files.push(file(alloc, b"t.csv", b"1\n2\n3\n")?)?;
    let mut files = MemFiles::new(files, List::new(alloc));
    let mut out = MemSink::new(alloc, List::new(alloc));
    let mut work = Steps::start(Mark);
    let mut steps = Steps::start(Mark);
    let _status = run(
        alloc,
        words.as_slice(),
        &mut files,
        &mut out,
        &mut work,
        &mut steps,
    );
    Ok((steps.count(), work.count() > 0))
}

fn each_row_is_fetched_once(alloc: Global) -> Result<bool, NoMemory> {
    Ok(
        fetched(alloc, b"")? == (0, false)
            && fetched(
                alloc,
                b"SELECT a FROM t WHERE a > 2;SELECT a FROM t LIMIT 1",
            )? == (6, false)
            && fetched(alloc, b"SELECT nope FROM t;SELECT 'a' LIKE 'b'")? == (0, true),
    )
}

#[test]
fn a_scan_fetches_each_row_once(rt: HostRuntime) {
    assert!(rt; each_row_is_fetched_once(rt.alloc()).unwrap_or(false));
}
