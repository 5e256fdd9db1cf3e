use mc_base::{FileRefusal, List, MemFiles, NoMemory, Text};
use mc_book::{AnyBook, BookFault, build_book, declares_built_kinds};
use mc_catalog::read_catalog;
use mc_charset::{CollId, is_well_formed};
use mc_order::{Book, Collation};
use std::alloc::Global;
use std::cmp::Ordering;

/// The lines of a catalog, the calls of the files that fail, and what is built of it.
struct Row {
    catalog: &'static [u8],
    fail: &'static [u64],
    want: Want,
    why: &'static str,
}

/// A book of so many collations, the last of which compares two texts so; the refused file; or a
/// fault of the device.
#[derive(Clone, Copy)]
enum Want {
    Book(u32, &'static [u8], &'static [u8], Ordering),
    Refused(&'static [u8], &'static [u8], u64),
    Fault,
}

const ROWS: [Row; 16] = [
    Row {
        catalog: b"collation latin1_german2_ci latin1 table8 g2.txt\n",
        fail: &[],
        want: Want::Book(10, b"\xC4", b"ae", Ordering::Equal),
        why: "a letter of two weights",
    },
    Row {
        catalog: b"collation latin1_german2_ci latin1 table8 g2.txt\ncollation utf8mb4_general_ci utf8mb4 general gen.txt\n",
        fail: &[],
        want: Want::Book(11, b"\xC3\x9F", b"s", Ordering::Equal),
        why: "the second declared collation is the last one",
    },
    Row {
        catalog: b"",
        fail: &[0],
        want: Want::Book(9, b"a", b"a ", Ordering::Less),
        why: "no file is opened where nothing is declared",
    },
    Row {
        catalog: b"collation latin1_german2_ci latin1 table8 none.txt\n",
        fail: &[],
        want: Want::Refused(b"none.txt", b"Absent", 0),
        why: "a missing file",
    },
    Row {
        catalog: b"collation utf8mb4_general_ci utf8mb4 general twice.txt\n",
        fail: &[],
        want: Want::Refused(b"twice.txt", b"Repeated", 3),
        why: "a line stands twice",
    },
    Row {
        catalog: b"collation latin1_german2_ci latin1 table8 cut.txt\n",
        fail: &[],
        want: Want::Refused(b"cut.txt", b"Missing", 0),
        why: "no default line",
    },
    Row {
        catalog: b"collation latin1_german2_ci latin1 table8 gen.txt\n",
        fail: &[],
        want: Want::Refused(b"gen.txt", b"BadLine", 1),
        why: "a table of code points where one of bytes is declared",
    },
    Row {
        catalog: b"collation utf8mb4_general_ci utf8mb4 general twice.txt\ncollation latin1_german2_ci latin1 table8 none.txt\n",
        fail: &[],
        want: Want::Refused(b"twice.txt", b"Repeated", 3),
        why: "the first refusal in the order of the catalog",
    },
    Row {
        catalog: b"collation utf8mb4_unicode_ci utf8mb4 uca400 el.txt\n",
        fail: &[],
        want: Want::Book(10, b"\xC3\x9F", b"ss", Ordering::Equal),
        why: "a letter of two elements",
    },
    Row {
        catalog: b"collation utf8mb4_0900_as_ci utf8mb4 uca900_as_ci el.txt\n",
        fail: &[],
        want: Want::Book(10, b"\xC3\x9F", b"SS", Ordering::Greater),
        why: "the second level",
    },
    Row {
        catalog: b"collation utf8mb4_unicode_ci utf8mb4 uca400 bare.txt\n",
        fail: &[],
        want: Want::Refused(b"bare.txt", b"SpaceWeight", 0),
        why: "the space is not listed, and texts are padded",
    },
    Row {
        catalog: b"collation utf8mb4_0900_ai_ci utf8mb4 uca900_ai_ci gen.txt\n",
        fail: &[],
        want: Want::Refused(b"gen.txt", b"BadLine", 1),
        why: "a table of code points where one of elements is declared",
    },
    Row {
        catalog: b"collation latin1_german2_ci latin1 table8 g2.txt\n",
        fail: &[0],
        want: Want::Fault,
        why: "the open fails",
    },
    Row {
        catalog: b"collation latin1_german2_ci latin1 table8 g2.txt\n",
        fail: &[1],
        want: Want::Fault,
        why: "the first read fails",
    },
    Row {
        catalog: b"collation latin1_german2_ci latin1 table8 g2.txt\n",
        fail: &[2],
        want: Want::Fault,
        why: "the read at the end fails",
    },
    Row {
        catalog: b"collation latin1_german2_ci latin1 table8 g2.txt\ncollation utf8mb4_general_ci utf8mb4 general gen.txt\n",
        fail: &[3],
        want: Want::Fault,
        why: "the second open fails",
    },
];

fn files(alloc: Global, fail: &[u64]) -> Result<MemFiles, NoMemory> {
    let german2 = b"default =\n61..7A @ 41\nC4 41 45\nE4 41 45\nDF 53 53\n";
    let elements =
        b"0020 ; [*0209.0020.0002]\n0053 ; [.0FEA.0020.0008]\n0073 ; [.0FEA.0020.0002]\n00DF ; [.0FEA.0021.0004][.0FEA.0020.0004]\n";
    let mut files = List::new(alloc);
    files.push((
        Text::from_slice(alloc, b"g2.txt")?,
        Text::from_slice(alloc, german2)?,
    ))?;
    files.push((
        Text::from_slice(alloc, b"cut.txt")?,
        Text::from_slice(alloc, &german2[10..])?,
    ))?;
    files.push((
        Text::from_slice(alloc, b"gen.txt")?,
        Text::from_slice(alloc, b"0061..007A @ 0041\n00DF 0053\n")?,
    ))?;
    files.push((
        Text::from_slice(alloc, b"twice.txt")?,
        Text::from_slice(alloc, b"0061..007A @ 0041\n00DF 0053\n00DF 0053\n")?,
    ))?;
    files.push((
        Text::from_slice(alloc, b"el.txt")?,
        Text::from_slice(alloc, elements)?,
    ))?;
    files.push((
        Text::from_slice(alloc, b"bare.txt")?,
        Text::from_slice(alloc, &elements[25..])?,
    ))?;
    Ok(MemFiles::new(files, List::from_slice(alloc, fail)?))
}

fn is_book(book: &AnyBook, count: u32, a: &[u8], b: &[u8], want: Ordering) -> bool {
    if book.count() != count || count == 0 {
        return false;
    }
    let last = book.by_id(CollId(count - 1));
    if !is_well_formed(last.charset(), a) || !is_well_formed(last.charset(), b) {
        return false;
    }
    last.compare(a, b) == want
}

fn is_refusal(refusal: &FileRefusal, name: &[u8], fault: &[u8], at: u64) -> bool {
    refusal.name.as_slice() == name && refusal.fault.as_slice() == fault && refusal.at == at
}

fn is_built_so(built: Result<AnyBook, BookFault>, want: Want) -> bool {
    match (built, want) {
        (Ok(book), Want::Book(count, a, b, order)) => is_book(&book, count, a, b, order),
        (Err(BookFault::Refused(refusal)), Want::Refused(name, fault, at)) => {
            is_refusal(&refusal, name, fault, at)
        }
        (Err(BookFault::Fault), Want::Fault) => true,
        _ => false,
    }
}

fn builds(alloc: Global, row: &Row) -> Result<bool, NoMemory> {
    let mut files = files(alloc, row.fail)?;
    if row.catalog.len() >= 1000 {
        return Ok(false);
    }
    let Ok(catalog) = read_catalog(alloc, row.catalog) else {
        return Ok(false);
    };
    if !declares_built_kinds(&catalog) {
        return Ok(false);
    }
    Ok(is_built_so(build_book(alloc, &catalog, &mut files), row.want))
}

#[test]
fn books_are_built_as_worked_out(rt: HostRuntime) {
    for row in &ROWS {
        assert!(rt; builds(rt.alloc(), row).unwrap_or(false), "{}", row.why);
    }
}
