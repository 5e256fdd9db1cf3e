ghost use Rattle.mc_catalog.specs.Lawful.{IsLawful};
ghost use Rattle.std.specs.Prelude.{◌<◌, ◌^◌, length};

use mc_base::{NoMemory, Steps, Text};
use mc_catalog::{Catalog, read_catalog};
use mc_rows::{RowsFault, RowsFaultKind, Table, load_rows};
use mc_values::Value;
use std::alloc::Global;

/// What a counter counts here.
#[derive(Drop)]
struct Fetched;

/// The columns of a table, the text of its file, and its fault with its place, if it has one.
struct Row {
    why: &'static str,
    columns: &'static [u8],
    text: &'static [u8],
    fault: Option<(RowsFaultKind, u64)>,
}

/// Accepted files first, then each fault in the order in which it is tested.
const ROWS: [Row; 24] = [
    Row {
        why: "no records",
        columns: b"table t f\ncolumn a bigint",
        text: b"",
        fault: None,
    },
    Row {
        why: "a mark, spaces at the end of a char, a blank line, a quoted NULL, nothing",
        columns: b"table t f\ncolumn a char 2 utf8mb4_bin",
        text: b"\xEF\xBB\xBFab   \n\n\"\\N\"\n\"\"\n",
        fault: None,
    },
    Row {
        why: "the least and the greatest bigint, zeros in front, no line feed at the end",
        columns: b"table t f\ncolumn a bigint",
        text: b"-9223372036854775808\r\n9223372036854775807\r007\n-0",
        fault: None,
    },
    Row {
        why: "characters are counted, not bytes",
        columns: b"table t f\ncolumn a varchar 2 utf8mb4_bin",
        text: b"\xC3\xA9\xC3\xA9",
        fault: None,
    },
    Row {
        why: "of a collation binary bytes are counted",
        columns: b"table t f\ncolumn a varchar 2 binary",
        text: b"\xC3\xA9",
        fault: None,
    },
    Row {
        why: "digits of both cases, no bytes, as many as fit",
        columns: b"table t f\ncolumn a binary 2\ncolumn b varbinary 2",
        text: b"0aFf,\n,0102",
        fault: None,
    },
    Row {
        why: "the longest prefix that is UTF-8",
        columns: b"table t f\ncolumn a bigint",
        text: b"x\n1\xFF",
        fault: Some((RowsFaultKind::NotUtf8, 3)),
    },
    Row {
        why: "a field too many",
        columns: b"table t f\ncolumn a bigint\ncolumn b varchar 9 utf8mb4_bin",
        text: b"1,a,b",
        fault: Some((RowsFaultKind::WrongCount, 1)),
    },
    Row {
        why: "a field too few, before the fault of another one",
        columns: b"table t f\ncolumn a bigint\ncolumn b bigint",
        text: b"1,2\nx",
        fault: Some((RowsFaultKind::WrongCount, 2)),
    },
    Row {
        why: "above 64 bits",
        columns: b"table t f\ncolumn a bigint\ncolumn b varchar 9 utf8mb4_bin",
        text: b"9223372036854775808,x",
        fault: Some((RowsFaultKind::BadInt, 1)),
    },
    Row {
        why: "below 64 bits",
        columns: b"table t f\ncolumn a bigint",
        text: b"-9223372036854775809",
        fault: Some((RowsFaultKind::BadInt, 1)),
    },
    Row {
        why: "a plus sign",
        columns: b"table t f\ncolumn a bigint",
        text: b"1\n+1",
        fault: Some((RowsFaultKind::BadInt, 2)),
    },
    Row {
        why: "no digits",
        columns: b"table t f\ncolumn a bigint",
        text: b"-",
        fault: Some((RowsFaultKind::BadInt, 1)),
    },
    Row {
        why: "an empty field is no number, and not NULL",
        columns: b"table t f\ncolumn a bigint",
        text: b"\"\"",
        fault: Some((RowsFaultKind::BadInt, 1)),
    },
    Row {
        why: "half a pair",
        columns: b"table t f\ncolumn a binary 1",
        text: b"0A0",
        fault: Some((RowsFaultKind::BadHex, 1)),
    },
    Row {
        why: "no digit, before too many",
        columns: b"table t f\ncolumn a varbinary 1",
        text: b"0A0g",
        fault: Some((RowsFaultKind::BadHex, 1)),
    },
    Row {
        why: "too many bytes",
        columns: b"table t f\ncolumn a varbinary 1",
        text: b"0A\n0A0B",
        fault: Some((RowsFaultKind::TooLong, 2)),
    },
    Row {
        why: "a character that latin1 lacks",
        columns: b"table t f\ncolumn a varchar 9 latin1_bin",
        text: b"\xD1\x8F",
        fault: Some((RowsFaultKind::Unfit, 1)),
    },
    Row {
        why: "a character that the set lacks, before too many",
        columns: b"table t f\ncolumn a varchar 1 latin1_bin",
        text: b"ab\xD1\x8F",
        fault: Some((RowsFaultKind::Unfit, 1)),
    },
    Row {
        why: "too many characters",
        columns: b"table t f\ncolumn a varchar 2 utf8mb4_bin",
        text: b"ab\nabc",
        fault: Some((RowsFaultKind::TooLong, 2)),
    },
    Row {
        why: "spaces at the end of a varchar count",
        columns: b"table t f\ncolumn a varchar 2 utf8mb4_bin",
        text: b"ab   ",
        fault: Some((RowsFaultKind::TooLong, 1)),
    },
    Row {
        why: "of a collation binary bytes are counted",
        columns: b"table t f\ncolumn a varchar 1 binary",
        text: b"\xC3\xA9",
        fault: Some((RowsFaultKind::TooLong, 1)),
    },
    Row {
        why: "the first field that has a fault",
        columns: b"table t f\ncolumn a varchar 1 utf8mb4_bin\ncolumn b bigint",
        text: b"ab,x",
        fault: Some((RowsFaultKind::TooLong, 1)),
    },
    Row {
        why: "the first record that has a fault",
        columns: b"table t f\ncolumn a bigint",
        text: b"x\n1,2",
        fault: Some((RowsFaultKind::BadInt, 1)),
    },
];

/// The table of a file, loaded for the first table of a catalog.
fn load(alloc: Global, columns: &[u8], text: &[u8]) -> Option<Result<Table<Fetched>, RowsFault>> {
    if columns.len() > 1_000 || text.len() > 10_000_000 {
        return None;
    }
    let Ok(catalog) = read_catalog(alloc, columns) else {
        return None;
    };
    load_first(alloc, &catalog, text)
}

/// The first table of a catalog, loaded.
fn load_first(
    alloc: Global,
    catalog: &Catalog,
    text: &[u8],
) -> Option<Result<Table<Fetched>, RowsFault>>
    requires lawful { IsLawful catalog.now }
    requires short { length text.now < 2 ^ 32 }
{
    if catalog.tables.is_empty() {
        return None;
    }
    let table = &catalog.tables.as_slice()[0];
    Some(load_rows(alloc, text, table, catalog))
}

/// Whether a file has this fault, or none.
fn has_fault(alloc: Global, row: &Row) -> bool {
    match load(alloc, row.columns, row.text) {
        Some(Ok(_)) => row.fault.is_none(),
        Some(Err(fault)) => row.fault == Some((fault.kind, fault.at)),
        None => false,
    }
}

#[test]
fn files_are_accepted_or_refused(rt: HostRuntime) {
    for row in &ROWS {
        assert!(rt; has_fault(rt.alloc(), row), "{}", row.why);
    }
}

/// Whether the table's only column has this string in a row.
fn has_text(table: &Table<Fetched>, i: u32, text: &[u8], steps: &mut Steps<Fetched>) -> bool {
    if i >= table.len() {
        return false;
    }
    matches!(table.fetch(i, steps).as_slice(), [Value::Str { text: kept, .. }]
        if kept.as_slice() == text)
}

/// Whether the table's only column is NULL in a row.
fn has_null(table: &Table<Fetched>, i: u32, steps: &mut Steps<Fetched>) -> bool {
    if i >= table.len() {
        return false;
    }
    matches!(table.fetch(i, steps).as_slice(), [Value::Null])
}

#[test]
fn a_char_has_no_spaces_at_its_end(rt: HostRuntime) {
    let mut steps = Steps::start(Fetched);
    let loaded = load(rt.alloc(), ROWS[1].columns, ROWS[1].text);
    assert!(rt; matches!(&loaded, Some(Ok(_))), "accepted");
    if let Some(Ok(table)) = loaded {
        assert_eq!(rt; table.len(), 3);
        assert!(rt;
            has_text(&table, 0, b"ab", &mut steps),
            "without its spaces"
        );
        assert!(rt; has_null(&table, 1, &mut steps), "a quoted NULL");
        assert!(rt; has_text(&table, 2, b"", &mut steps), "empty, and no NULL");
        assert_eq!(rt; steps.count(), 3, "a tick for each row that was fetched");
    }
}

#[test]
fn a_binary_is_padded(rt: HostRuntime) {
    let mut steps = Steps::start(Fetched);
    let loaded = load(rt.alloc(), b"table t f\ncolumn a binary 3", b"0aFf\n\\N\n");
    assert!(rt; matches!(&loaded, Some(Ok(_))), "accepted");
    if let Some(Ok(table)) = loaded {
        assert!(rt;
            has_text(&table, 0, b"\x0A\xFF\x00", &mut steps),
            "with a zero"
        );
        assert!(rt; has_null(&table, 1, &mut steps), "NULL");
    }
}

/// A text of so many records, each one byte and a line feed.
fn records(alloc: Global, count: u32) -> Result<Text, NoMemory> {
    let mut text = Text::new(alloc);
    for _ in 0..count {
        text.extend_from_slice(b"7\n")?;
    }
    Ok(text)
}

/// The fault of a file of so many records, and how many rows it has without one.
fn counted(alloc: Global, count: u32) -> Option<Result<u32, RowsFault>> {
    let Ok(text) = records(alloc, count) else {
        return None;
    };
    match load(alloc, b"table t f\ncolumn a bigint", text.as_slice()) {
        Some(Ok(table)) => Some(Ok(table.len())),
        Some(Err(fault)) => Some(Err(fault)),
        None => None,
    }
}

#[test]
fn a_table_has_at_most_200_000_rows(rt: HostRuntime) {
    let most = counted(rt.alloc(), 200_000);
    assert!(rt;
        matches!(most, Some(Ok(200_000))),
        "as many as there may be"
    );
    let more = counted(rt.alloc(), 200_001);
    assert!(rt;
        matches!(more, Some(Err(fault))
            if fault.kind == RowsFaultKind::TooManyRows && fault.at == 200_001),
        "one more"
    );
}

/// A text of so many bytes `a`.
fn letters(alloc: Global, count: u32) -> Result<Text, NoMemory> {
    let mut text = Text::new(alloc);
    for _ in 0..count {
        text.push(b'a')?;
    }
    Ok(text)
}

/// Whether a varchar of the greatest length takes so many characters.
fn takes(alloc: Global, count: u32) -> bool {
    let Ok(text) = letters(alloc, count) else {
        return false;
    };
    matches!(
        load(
            alloc,
            b"table t f\ncolumn a varchar 4096 utf8mb4_bin",
            text.as_slice()
        ),
        Some(Ok(_))
    )
}

#[test]
fn a_varchar_has_at_most_4096_characters(rt: HostRuntime) {
    assert!(rt; takes(rt.alloc(), 4_096), "as many as there may be");
    assert!(rt; !takes(rt.alloc(), 4_097), "one more");
}
