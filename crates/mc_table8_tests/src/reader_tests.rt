use mc_table8::{TableFault, read_general, read_table8};
use std::alloc::Global;

/// A fault that a file has.
#[derive(Clone, Copy, PartialEq, Eq)]
enum Fault {
    BadLine(u32),
    Repeated(u32),
    Missing(u32),
}

/// A file of weights of bytes, with some bytes and their weights, or with its fault.
struct BytesRow {
    text: &'static [u8],
    want: Result<&'static [(u8, (u8, Option<u8>))], Fault>,
    why: &'static str,
}

const BYTES_ROWS: [BytesRow; 29] = [
    BytesRow {
        text: b"default =\n61..7A @ 41\n",
        want: Ok(&[
            (0x20, (0x20, None)),
            (0x60, (0x60, None)),
            (0x61, (0x41, None)),
            (0x7A, (0x5A, None)),
            (0x7B, (0x7B, None)),
            (0xFF, (0xFF, None)),
        ]),
        why: "letters without case",
    },
    BytesRow {
        text: b"default =\n61..7A @ 41\nC4 41\nE4 41\nDF 53\n",
        want: Ok(&[
            (0xC4, (0x41, None)),
            (0xE4, (0x41, None)),
            (0xDF, (0x53, None)),
            (0xC5, (0xC5, None)),
        ]),
        why: "letters without accents",
    },
    BytesRow {
        text: b"default =\n61..7A @ 41\nC4 41 45\nD6 4F 45\nFC 55 45\nDF 53 53\n",
        want: Ok(&[
            (0xC4, (0x41, Some(0x45))),
            (0xD6, (0x4F, Some(0x45))),
            (0xFC, (0x55, Some(0x45))),
            (0xDF, (0x53, Some(0x53))),
            (0x41, (0x41, None)),
        ]),
        why: "letters that expand",
    },
    BytesRow {
        text: b"61..7A @ 41\nC4 41 45\nD6 4F 45\nFC 55 45\nDF 53 53\n",
        want: Err(Fault::Missing(0)),
        why: "the same without its default",
    },
    BytesRow {
        text: b"default =\n61..7A @ 41\n20 41 42\n",
        want: Err(Fault::BadLine(3)),
        why: "two weights for the space",
    },
    BytesRow {
        text: b"20..21 @ 41\ndefault =",
        want: Ok(&[(0x20, (0x41, None)), (0x21, (0x42, None))]),
        why: "the space in a range, no line feed at the end",
    },
    BytesRow {
        text: b"7A..61 @ 41",
        want: Err(Fault::BadLine(1)),
        why: "a range that ends below its start",
    },
    BytesRow {
        text: b"41 100",
        want: Err(Fault::BadLine(1)),
        why: "a weight above FF",
    },
    BytesRow {
        text: b"061 41",
        want: Err(Fault::BadLine(1)),
        why: "three digits",
    },
    BytesRow {
        text: b"default =\nFF..FF @ FF",
        want: Ok(&[(0xFF, (0xFF, None))]),
        why: "the greatest weight at the end of a range",
    },
    BytesRow {
        text: b"default =\nFE..FF @ FF",
        want: Err(Fault::BadLine(2)),
        why: "a weight above FF within a range",
    },
    BytesRow {
        text: b"default =\n\ndefault =\n",
        want: Err(Fault::Repeated(3)),
        why: "a second default behind a blank line",
    },
    BytesRow {
        text: b"default =\n6a 4b",
        want: Ok(&[(0x6A, (0x4B, None))]),
        why: "digits in lower case",
    },
    BytesRow {
        text: b"# head\n\n \tdefault = # rest\n \t\n61\t41 # a",
        want: Ok(&[(0x61, (0x41, None)), (0x62, (0x62, None))]),
        why: "comments, blanks and blank lines",
    },
    BytesRow {
        text: b"default =\r\n61 41\r\n",
        want: Ok(&[(0x61, (0x41, None))]),
        why: "lines that end with CR LF",
    },
    BytesRow {
        text: b"default =\n61 \xE4",
        want: Err(Fault::BadLine(2)),
        why: "a byte above 7F",
    },
    BytesRow {
        text: b"default = # \xE4\n61 41",
        want: Ok(&[(0x61, (0x41, None))]),
        why: "a byte above 7F in a comment",
    },
    BytesRow {
        text: b"61 41 42 43",
        want: Err(Fault::BadLine(1)),
        why: "three weights",
    },
    BytesRow {
        text: b"61 .. 7A @ 41",
        want: Err(Fault::BadLine(1)),
        why: "a range with spaces",
    },
    BytesRow {
        text: b"61...7A @ 41",
        want: Err(Fault::BadLine(1)),
        why: "a range with three dots",
    },
    BytesRow {
        text: b"DEFAULT =",
        want: Err(Fault::BadLine(1)),
        why: "the word in upper case",
    },
    BytesRow {
        text: b"00..FF =",
        want: Ok(&[
            (0x00, (0x00, None)),
            (0x61, (0x61, None)),
            (0xFF, (0xFF, None)),
        ]),
        why: "each byte itself",
    },
    BytesRow {
        text: b"7A 41\n61..7A @ 41",
        want: Err(Fault::Repeated(2)),
        why: "a range over a listed byte",
    },
    BytesRow {
        text: b"61..7A @ 41\n7A 41",
        want: Err(Fault::Repeated(2)),
        why: "a byte of a range above",
    },
    BytesRow {
        text: b"20 20\n20 41 42",
        want: Err(Fault::BadLine(2)),
        why: "a bad line that repeats is a bad line",
    },
    BytesRow {
        text: b"61 41\n61 42\n61 43 44 45",
        want: Err(Fault::Repeated(2)),
        why: "the first fault",
    },
    BytesRow {
        text: b"00..FE =",
        want: Err(Fault::Missing(0xFF)),
        why: "the last byte is missing",
    },
    BytesRow {
        text: b"42..FF =\n00..40 =",
        want: Err(Fault::Missing(0x41)),
        why: "a byte between two ranges is missing",
    },
    BytesRow {
        text: b"",
        want: Err(Fault::Missing(0)),
        why: "nothing",
    },
];

/// A file of weights of code points, with some code points and their weights, or with its fault.
struct CodesRow {
    text: &'static [u8],
    want: Result<&'static [(u32, u32)], Fault>,
    why: &'static str,
}

const CODES_ROWS: [CodesRow; 16] = [
    CodesRow {
        text: b"0061..007A @ 0041\n00DF 0053\n",
        want: Ok(&[
            (0x41, 0x41),
            (0x61, 0x41),
            (0x7A, 0x5A),
            (0xDF, 0x53),
            (0xE000, 0xE000),
            (0x10FFFF, 0xFFFD),
        ]),
        why: "letters without case",
    },
    CodesRow {
        text: b"0061..007A @ 0041\n00DF 0053\n00DF 0053\n",
        want: Err(Fault::Repeated(3)),
        why: "a line twice",
    },
    CodesRow {
        text: b"FFFD 41",
        want: Ok(&[(0xFFFD, 0x41), (0x10000, 0x41), (0xFFFC, 0xFFFC)]),
        why: "above FFFF the weight of U+FFFD",
    },
    CodesRow {
        text: b"",
        want: Ok(&[(0x0, 0x0), (0xFFFF, 0xFFFF)]),
        why: "nothing: each its own weight",
    },
    CodesRow {
        text: b"000061 41",
        want: Ok(&[(0x61, 0x41)]),
        why: "six digits",
    },
    CodesRow {
        text: b"0000061 41",
        want: Err(Fault::BadLine(1)),
        why: "seven digits",
    },
    CodesRow {
        text: b"10000 41",
        want: Err(Fault::BadLine(1)),
        why: "a code point above FFFF",
    },
    CodesRow {
        text: b"41 10000",
        want: Err(Fault::BadLine(1)),
        why: "a weight above FFFF",
    },
    CodesRow {
        text: b"FFFF..FFFF @ FFFF",
        want: Ok(&[(0xFFFF, 0xFFFF)]),
        why: "the greatest weight at the end of a range",
    },
    CodesRow {
        text: b"FFFE..FFFF @ FFFF",
        want: Err(Fault::BadLine(1)),
        why: "a weight above FFFF within a range",
    },
    CodesRow {
        text: b"007A..0061 @ 0041",
        want: Err(Fault::BadLine(1)),
        why: "a range that ends below its start",
    },
    CodesRow {
        text: b"default =",
        want: Err(Fault::BadLine(1)),
        why: "a default",
    },
    CodesRow {
        text: b"61..7A =",
        want: Err(Fault::BadLine(1)),
        why: "a range of itself",
    },
    CodesRow {
        text: b"61 41 42",
        want: Err(Fault::BadLine(1)),
        why: "two weights",
    },
    CodesRow {
        text: b"0061 0041\n0060..0062 @ 0040",
        want: Err(Fault::Repeated(2)),
        why: "a range over a listed code point",
    },
    CodesRow {
        text: b"0020..0021 @ 0041",
        want: Ok(&[(0x20, 0x41), (0x21, 0x42)]),
        why: "the space in a range",
    },
];

/// Whether a fault is this one.
fn is(fault: &TableFault, want: Fault) -> bool {
    match fault {
        TableFault::BadLine(line) => want == Fault::BadLine(*line),
        TableFault::Repeated(line) => want == Fault::Repeated(*line),
        TableFault::Missing(byte) => want == Fault::Missing(*byte),
        TableFault::NoMemory => false,
    }
}

/// Whether a file of weights of bytes reads as its row says.
fn bytes_read(alloc: Global, row: &BytesRow) -> bool {
    if row.text.len() > 1000 {
        return false;
    }
    match (read_table8(alloc, row.text), row.want) {
        (Ok(table), Ok(want)) => want.iter().all(|entry| table.weights(entry.0) == entry.1),
        (Err(fault), Err(want)) => is(&fault, want),
        _ => false,
    }
}

/// Whether a file of weights of code points reads as its row says.
fn codes_read(alloc: Global, row: &CodesRow) -> bool {
    if row.text.len() > 1000 {
        return false;
    }
    match (read_general(alloc, row.text), row.want) {
        (Ok(table), Ok(want)) => want.iter().all(|entry| table.weight(entry.0) == entry.1),
        (Err(fault), Err(want)) => is(&fault, want),
        _ => false,
    }
}

#[test]
fn files_of_bytes_are_read(rt: HostRuntime) {
    for row in &BYTES_ROWS {
        assert!(rt; bytes_read(rt.alloc(), row), "{}", row.why);
    }
}

#[test]
fn files_of_code_points_are_read(rt: HostRuntime) {
    for row in &CODES_ROWS {
        assert!(rt; codes_read(rt.alloc(), row), "{}", row.why);
    }
}
