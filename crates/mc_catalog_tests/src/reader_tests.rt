use mc_base::{NoMemory, Text};
use mc_catalog::{CatalogFaultKind, read_catalog};
use std::alloc::Global;

/// A file, and its fault, if it has one.
struct Row {
    text: &'static [u8],
    fault: Option<(CatalogFaultKind, u32)>,
    why: &'static str,
}

/// Accepted files first, then each fault in the order in which a line is tested.
const ROWS: [Row; 49] = [
    Row {
        text: b"",
        fault: None,
        why: "no lines",
    },
    Row {
        text: b"# nothing\n \n\t\r\n",
        fault: None,
        why: "a comment and blank lines",
    },
    Row {
        text: b"connection utf8mb4_bin # caf\xC3\xA9",
        fault: None,
        why: "a byte above 7F in a comment",
    },
    Row {
        text: b"\ttable  t\tf \r\n column a bigint\r\n",
        fault: None,
        why: "blanks and CR LF",
    },
    Row {
        text: b"collation x UTF8 general f",
        fault: None,
        why: "the case of a set, and its other name",
    },
    Row {
        text: b"collation x utf8mb4 uca400 f rules r",
        fault: None,
        why: "rules behind a kind that takes them",
    },
    Row {
        text: b"table t f\ncolumn a binary 255\ncolumn b varbinary 4096\nindex i a 255\nindex j b 1",
        fault: None,
        why: "binary columns",
    },
    Row {
        text: b"table t f\ncolumn a char 255 binary\nindex i a",
        fault: None,
        why: "a text of collation binary",
    },
    Row {
        text: b"collation x koi8 table8 f",
        fault: Some((CatalogFaultKind::UnknownCharset, 1)),
        why: "no such set",
    },
    Row {
        text: b"collation x latin1 uca1400 f",
        fault: Some((CatalogFaultKind::UnknownKind, 1)),
        why: "no such kind",
    },
    Row {
        text: b"collation x latin1 Table8 f",
        fault: Some((CatalogFaultKind::UnknownKind, 1)),
        why: "kinds are in lower case",
    },
    Row {
        text: b"collation x latin1 general f",
        fault: Some((CatalogFaultKind::WrongCharset, 1)),
        why: "general is for Unicode sets",
    },
    Row {
        text: b"collation x utf8mb4 table8 f",
        fault: Some((CatalogFaultKind::WrongCharset, 1)),
        why: "table8 is for sets of one byte",
    },
    Row {
        text: b"collation x utf16 uca900_ai_ci f",
        fault: Some((CatalogFaultKind::WrongCharset, 1)),
        why: "uca900 is for utf8mb4",
    },
    Row {
        text: b"collation x koi8 uca1400 f",
        fault: Some((CatalogFaultKind::UnknownCharset, 1)),
        why: "the set before the kind",
    },
    Row {
        text: b"collation x latin1 table8 f rules r",
        fault: Some((CatalogFaultKind::BadLine, 1)),
        why: "table8 takes no rules",
    },
    Row {
        text: b"collation x koi8 uca1400 f rules r",
        fault: Some((CatalogFaultKind::BadLine, 1)),
        why: "rules of an unknown kind, before the set",
    },
    Row {
        text: b"collation x latin1 table8 caf\xC3\xA9",
        fault: Some((CatalogFaultKind::BadLine, 1)),
        why: "a byte above 7F",
    },
    Row {
        text: b"collation x latin1 table8",
        fault: Some((CatalogFaultKind::BadLine, 1)),
        why: "no file",
    },
    Row {
        text: b"collation latin1_bin latin1 table8 f",
        fault: Some((CatalogFaultKind::Repeated, 1)),
        why: "a built-in name",
    },
    Row {
        text: b"collation x latin1 table8 f\ncollation X ascii table8 g",
        fault: Some((CatalogFaultKind::Repeated, 2)),
        why: "names differ by more than case",
    },
    Row {
        text: b"connection x\ncollation x latin1 table8 f",
        fault: Some((CatalogFaultKind::UnknownCollation, 1)),
        why: "declared below",
    },
    Row {
        text: b"connection utf8mb4_bin\nconnection latin1_bin",
        fault: Some((CatalogFaultKind::Repeated, 2)),
        why: "a second connection line",
    },
    Row {
        text: b"connection utf8mb4_bin\nconnection nope",
        fault: Some((CatalogFaultKind::UnknownCollation, 2)),
        why: "the name before the repetition",
    },
    Row {
        text: b"connection 1a",
        fault: Some((CatalogFaultKind::BadLine, 1)),
        why: "a name that begins with a digit",
    },
    Row {
        text: b"connection a-b",
        fault: Some((CatalogFaultKind::BadLine, 1)),
        why: "a byte that no name has",
    },
    Row {
        text: b"connection a234567890123456789012345678901234567890123456789012345678901234",
        fault: Some((CatalogFaultKind::UnknownCollation, 1)),
        why: "a name of 64 bytes",
    },
    Row {
        text: b"connection a2345678901234567890123456789012345678901234567890123456789012345",
        fault: Some((CatalogFaultKind::BadLine, 1)),
        why: "one of 65",
    },
    Row {
        text: b"\n# c\n\nTable t f",
        fault: Some((CatalogFaultKind::BadLine, 4)),
        why: "keywords are in lower case; each line counts",
    },
    Row {
        text: b"table t f g",
        fault: Some((CatalogFaultKind::BadLine, 1)),
        why: "one field too many",
    },
    Row {
        text: b"table t f\ncolumn a bigint\ntable T g",
        fault: Some((CatalogFaultKind::Repeated, 3)),
        why: "a table's name",
    },
    Row {
        text: b"table t t.csv",
        fault: Some((CatalogFaultKind::NoColumn, 1)),
        why: "a table without a column",
    },
    Row {
        text: b"table t f\ntable u g\ncolumn a bigint",
        fault: Some((CatalogFaultKind::NoColumn, 1)),
        why: "the first of two tables",
    },
    Row {
        text: b"table t f\ntable u g",
        fault: Some((CatalogFaultKind::NoColumn, 1)),
        why: "the first one's line",
    },
    Row {
        text: b"table t f\ntable u g\ncolumn a text",
        fault: Some((CatalogFaultKind::BadLine, 3)),
        why: "a line before the end",
    },
    Row {
        text: b"column a varchar 10 nope",
        fault: Some((CatalogFaultKind::BadLine, 1)),
        why: "no table above, before the collation",
    },
    Row {
        text: b"table t f\ncolumn a varchar 4097 utf8mb4_bin",
        fault: Some((CatalogFaultKind::BadLine, 2)),
        why: "above the limit",
    },
    Row {
        text: b"table t f\ncolumn a char 0 nope",
        fault: Some((CatalogFaultKind::BadLine, 2)),
        why: "a length of 0, before the collation",
    },
    Row {
        text: b"table t f\ncolumn a char 08 ascii_bin",
        fault: Some((CatalogFaultKind::BadLine, 2)),
        why: "a leading zero",
    },
    Row {
        text: b"table t f\ncolumn a varchar 10 nope",
        fault: Some((CatalogFaultKind::UnknownCollation, 2)),
        why: "no such collation",
    },
    Row {
        text: b"table t f\ncolumn a bigint\ncolumn A bigint",
        fault: Some((CatalogFaultKind::Repeated, 3)),
        why: "a column's name",
    },
    Row {
        text: b"index i c",
        fault: Some((CatalogFaultKind::BadLine, 1)),
        why: "no table above",
    },
    Row {
        text: b"table t f\ncolumn a varchar 10 utf8mb4_bin\nindex i b",
        fault: Some((CatalogFaultKind::UnknownColumn, 3)),
        why: "no such column",
    },
    Row {
        text: b"table t f\ncolumn a bigint\nindex i a",
        fault: Some((CatalogFaultKind::UnknownColumn, 3)),
        why: "a bigint",
    },
    Row {
        text: b"table t f\ncolumn a varchar 10 utf8mb4_bin\nindex i a 11",
        fault: Some((CatalogFaultKind::BadLength, 3)),
        why: "above the length",
    },
    Row {
        text: b"table t f\ncolumn a varchar 10 utf8mb4_bin\nindex i a 0",
        fault: Some((CatalogFaultKind::BadLength, 3)),
        why: "no characters",
    },
    Row {
        text: b"table t f\ncolumn a varchar 10 utf8mb4_bin\nindex i a 99999999999999999999",
        fault: Some((CatalogFaultKind::BadLength, 3)),
        why: "a number of any length",
    },
    Row {
        text: b"table t f\ncolumn a char 3 ascii_bin\nindex i a\nindex I b",
        fault: Some((CatalogFaultKind::UnknownColumn, 4)),
        why: "the column before the repetition",
    },
    Row {
        text: b"table t f\ncolumn a char 3 ascii_bin\nindex i a\nindex I a",
        fault: Some((CatalogFaultKind::Repeated, 4)),
        why: "an index's name",
    },
];

/// Lines that are the same but for a number, behind a head.
struct Limit {
    head: &'static [u8],
    front: &'static [u8],
    back: &'static [u8],
    greatest: u8,
    line: u32,
    why: &'static str,
}

/// The greatest number of such lines, and the line of the one too many.
const LIMITS: [Limit; 4] = [
    Limit {
        head: b"",
        front: b"collation c",
        back: b" latin1 table8 f\n",
        greatest: 64,
        line: 65,
        why: "collations",
    },
    Limit {
        head: b"",
        front: b"table t",
        back: b" f\ncolumn a bigint\n",
        greatest: 16,
        line: 33,
        why: "tables",
    },
    Limit {
        head: b"table t f\n",
        front: b"column c",
        back: b" bigint\n",
        greatest: 32,
        line: 34,
        why: "columns",
    },
    Limit {
        head: b"table t f\ncolumn a binary 9\n",
        front: b"index i",
        back: b" a\n",
        greatest: 8,
        line: 11,
        why: "indexes",
    },
];

/// The fault of a short file, if it has one.
fn fault_of(alloc: Global, text: &[u8]) -> Option<(CatalogFaultKind, u32)> {
    if text.len() > 9_999 {
        return None;
    }
    match read_catalog(alloc, text) {
        Ok(_) => None,
        Err(fault) => Some((fault.kind, fault.line)),
    }
}

/// A file with this many of the lines.
fn file_of(alloc: Global, limit: &Limit, count: u8) -> Result<Text, NoMemory> {
    let mut text = Text::from_slice(alloc, limit.head)?;
    for i in 0..count {
        text.extend_from_slice(limit.front)?;
        text.push(b'0' + i / 10 % 10)?;
        text.push(b'0' + i % 10)?;
        text.extend_from_slice(limit.back)?;
    }
    Ok(text)
}

#[test]
fn files_are_accepted_or_have_their_first_fault(rt: HostRuntime) {
    for row in &ROWS {
        assert!(rt; fault_of(rt.alloc(), row.text) == row.fault, "{}", row.why);
    }
}

#[test]
fn one_line_too_many_is_told(rt: HostRuntime) {
    for limit in &LIMITS {
        let most = file_of(rt.alloc(), limit, limit.greatest);
        assert!(rt;
            matches!(&most, Ok(text) if fault_of(rt.alloc(), text.as_slice()).is_none()),
            "{}",
            limit.why
        );
        let more = file_of(rt.alloc(), limit, limit.greatest.min(99) + 1);
        let fault = (CatalogFaultKind::TooMany, limit.line);
        assert!(rt;
            matches!(&more, Ok(text) if fault_of(rt.alloc(), text.as_slice()) == Some(fault)),
            "{}",
            limit.why
        );
    }
}
