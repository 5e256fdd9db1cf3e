ghost use Rattle.std.specs.Prelude.{◌≡◌, IfOk};

use crate::status::Status;
use crate::tests::{status_of, words_of};
use mc_base::{List, MemFiles, MemSink, NoMemory, Text};
use std::alloc::Global;

const THREE: &[u8] = b"collation latin1_swedish_ci latin1 table8 sw.txt
collation latin1_german2_ci latin1 table8 g2.txt
collation utf8mb4_general_ci utf8mb4 general gen.txt
";

const SWEDISH: &[u8] = b"collation latin1_swedish_ci latin1 table8 sw.txt
connection latin1_swedish_ci
";

const SW: &[u8] = b"default =\n61..7A @ 41\n";

const G2: &[u8] =
    b"default =\n61..7A @ 41\nC4 41 45\nE4 41 45\nD6 4F 45\nF6 4F 45\nDC 55 45\nFC 55 45\nDF 53 53\n";

const GEN: &[u8] = b"0061..007A @ 0041\n00DF 0053\n";

/// A run over a catalog, a script and the weight files: the calls of the files that fail, and how
/// it ends with what is written.
struct Loaded {
    why: &'static str,
    catalog: &'static [u8],
    script: &'static [u8],
    swedish: &'static [u8],
    german: &'static [u8],
    general: &'static [u8],
    failing_reads: &'static [u64],
    status: Status,
    written: &'static [u8],
}

const LOADED: [Loaded; 31] = [
    Loaded {
        why: "a letter of two weights",
        catalog: THREE,
        script: b"SELECT _latin1 X'E4' COLLATE latin1_german2_ci = _latin1'ae';",
        swedish: SW,
        german: G2,
        general: GEN,
        failing_reads: &[],
        status: Status::Done,
        written: b"_latin1 X'E4' COLLATE latin1_german2_ci = _latin1'ae'\n1\n",
    },
    Loaded {
        why: "the right operand's collation",
        catalog: THREE,
        script: b"SELECT _latin1'ae' = _latin1 X'E4' COLLATE latin1_german2_ci;",
        swedish: SW,
        german: G2,
        general: GEN,
        failing_reads: &[],
        status: Status::Done,
        written: b"_latin1'ae' = _latin1 X'E4' COLLATE latin1_german2_ci\n1\n",
    },
    Loaded {
        why: "each letter by itself",
        catalog: THREE,
        script: b"SELECT _latin1 X'E4' COLLATE latin1_swedish_ci = _latin1'ae';",
        swedish: SW,
        german: G2,
        general: GEN,
        failing_reads: &[],
        status: Status::Done,
        written: b"_latin1 X'E4' COLLATE latin1_swedish_ci = _latin1'ae'\n0\n",
    },
    Loaded {
        why: "one weight a code point",
        catalog: THREE,
        script: b"SELECT '\xc3\x9f' COLLATE utf8mb4_general_ci = 's';",
        swedish: SW,
        german: G2,
        general: GEN,
        failing_reads: &[],
        status: Status::Done,
        written: b"'\xc3\x9f' COLLATE utf8mb4_general_ci = 's'\n1\n",
    },
    Loaded {
        why: "and not two",
        catalog: THREE,
        script: b"SELECT '\xc3\x9f' COLLATE utf8mb4_general_ci = 'ss';",
        swedish: SW,
        german: G2,
        general: GEN,
        failing_reads: &[],
        status: Status::Done,
        written: b"'\xc3\x9f' COLLATE utf8mb4_general_ci = 'ss'\n0\n",
    },
    Loaded {
        why: "no collation of this name",
        catalog: THREE,
        script: b"SELECT 'a' COLLATE nope = 'a';",
        swedish: SW,
        german: G2,
        general: GEN,
        failing_reads: &[],
        status: Status::SomeRefused,
        written: b"ERROR 1273: Unknown collation: 'nope'\n",
    },
    Loaded {
        why: "a collation of another set",
        catalog: THREE,
        script: b"SELECT 'a' COLLATE latin1_swedish_ci = 'a';",
        swedish: SW,
        german: G2,
        general: GEN,
        failing_reads: &[],
        status: Status::SomeRefused,
        written: b"ERROR 1253: COLLATION 'latin1_swedish_ci' is not valid for CHARACTER SET 'utf8mb4'\n",
    },
    Loaded {
        why: "strings of two sets",
        catalog: THREE,
        script: b"SELECT 'a' COLLATE utf8mb4_general_ci = _latin1'a';",
        swedish: SW,
        german: G2,
        general: GEN,
        failing_reads: &[],
        status: Status::Done,
        written: b"'a' COLLATE utf8mb4_general_ci = _latin1'a'\n1\n",
    },
    Loaded {
        why: "the connection's collation and set",
        catalog: SWEDISH,
        script: b"SELECT 'A' = 'a';SELECT HEX('\xc3\xa9\xd1\x8f');",
        swedish: SW,
        german: G2,
        general: GEN,
        failing_reads: &[],
        status: Status::Done,
        written: b"'A' = 'a'\n1\nHEX('\xc3\xa9\xd1\x8f')\nE93F\n",
    },
    Loaded {
        why: "a connection in binary shows bytes",
        catalog: b"connection binary\n",
        script: b"SELECT HEX('a');",
        swedish: SW,
        german: G2,
        general: GEN,
        failing_reads: &[],
        status: Status::Done,
        written: b"HEX('a')\n0x3631\n",
    },
    Loaded {
        why: "an empty catalog",
        catalog: b"",
        script: b"SELECT 'a' = 'a ';",
        swedish: SW,
        german: G2,
        general: GEN,
        failing_reads: &[],
        status: Status::Done,
        written: b"'a' = 'a '\n1\n",
    },
    Loaded {
        why: "a code point stands twice",
        catalog: b"collation x utf8mb4 general gen.txt\n",
        script: b"",
        swedish: SW,
        german: G2,
        general: b"0061..007A @ 0041\n00DF 0053\n00DF 0053\n",
        failing_reads: &[],
        status: Status::FilesRefused,
        written: b"refused gen.txt Repeated 3\n",
    },
    Loaded {
        why: "bytes without weights",
        catalog: b"collation x latin1 table8 g2.txt\n",
        script: b"",
        swedish: SW,
        german: b"61..7A @ 41\nC4 41 45\n",
        general: GEN,
        failing_reads: &[],
        status: Status::FilesRefused,
        written: b"refused g2.txt Missing 0\n",
    },
    Loaded {
        why: "two weights for the space",
        catalog: b"collation x latin1 table8 sw.txt\n",
        script: b"",
        swedish: b"default =\n61..7A @ 41\n20 41 42\n",
        german: G2,
        general: GEN,
        failing_reads: &[],
        status: Status::FilesRefused,
        written: b"refused sw.txt BadLine 3\n",
    },
    Loaded {
        why: "a missing table",
        catalog: b"collation x latin1 table8 sw.txt\ncollation y latin1 table8 none.txt\n",
        script: b"",
        swedish: SW,
        german: G2,
        general: GEN,
        failing_reads: &[],
        status: Status::FilesRefused,
        written: b"refused none.txt Absent 0\n",
    },
    Loaded {
        why: "the first refused table",
        catalog: b"collation x latin1 table8 g2.txt\ncollation y latin1 table8 none.txt\n",
        script: b"",
        swedish: SW,
        german: b"61..7A @ 41\nC4 41 45\n",
        general: GEN,
        failing_reads: &[],
        status: Status::FilesRefused,
        written: b"refused g2.txt Missing 0\n",
    },
    Loaded {
        why: "a bad line of the catalog",
        catalog: b"connection\n",
        script: b"",
        swedish: SW,
        german: G2,
        general: GEN,
        failing_reads: &[],
        status: Status::FilesRefused,
        written: b"refused cat.txt BadLine 1\n",
    },
    Loaded {
        why: "a catalog's fault with its line",
        catalog: b"# sets\n\ncollation x koi8 table8 f\n",
        script: b"",
        swedish: SW,
        german: G2,
        general: GEN,
        failing_reads: &[],
        status: Status::FilesRefused,
        written: b"refused cat.txt UnknownCharset 3\n",
    },
    Loaded {
        why: "a collation with rules",
        catalog: b"collation x utf8mb4 uca400 none.txt rules none.txt\n",
        script: b"",
        swedish: SW,
        german: G2,
        general: GEN,
        failing_reads: &[],
        status: Status::FilesRefused,
        written: b"refused cat.txt NotBuilt 0\n",
    },
    Loaded {
        why: "the file of a table's rows is missing",
        catalog: b"table t none.txt\ncolumn a bigint\n",
        script: b"",
        swedish: SW,
        german: G2,
        general: GEN,
        failing_reads: &[],
        status: Status::FilesRefused,
        written: b"refused none.txt Absent 0\n",
    },
    Loaded {
        why: "the script before the tables of the collations",
        catalog: b"collation x latin1 table8 none.txt\n",
        script: b"SELECT 1;\xff",
        swedish: SW,
        german: G2,
        general: GEN,
        failing_reads: &[],
        status: Status::FilesRefused,
        written: b"refused s.sql NotUtf8 9\n",
    },
    Loaded {
        why: "it fails where the catalog is opened",
        catalog: SWEDISH,
        script: b"SELECT 'a' = 'a';",
        swedish: SW,
        german: G2,
        general: GEN,
        failing_reads: &[0],
        status: Status::ReadFault,
        written: b"",
    },
    Loaded {
        why: "it fails where the catalog is read",
        catalog: SWEDISH,
        script: b"SELECT 'a' = 'a';",
        swedish: SW,
        german: G2,
        general: GEN,
        failing_reads: &[1],
        status: Status::ReadFault,
        written: b"",
    },
    Loaded {
        why: "it fails where the catalog is read to its end",
        catalog: SWEDISH,
        script: b"SELECT 'a' = 'a';",
        swedish: SW,
        german: G2,
        general: GEN,
        failing_reads: &[2],
        status: Status::ReadFault,
        written: b"",
    },
    Loaded {
        why: "it fails where the script is opened",
        catalog: SWEDISH,
        script: b"SELECT 'a' = 'a';",
        swedish: SW,
        german: G2,
        general: GEN,
        failing_reads: &[3],
        status: Status::ReadFault,
        written: b"",
    },
    Loaded {
        why: "it fails where the script is read",
        catalog: SWEDISH,
        script: b"SELECT 'a' = 'a';",
        swedish: SW,
        german: G2,
        general: GEN,
        failing_reads: &[4],
        status: Status::ReadFault,
        written: b"",
    },
    Loaded {
        why: "it fails where the script is read to its end",
        catalog: SWEDISH,
        script: b"SELECT 'a' = 'a';",
        swedish: SW,
        german: G2,
        general: GEN,
        failing_reads: &[5],
        status: Status::ReadFault,
        written: b"",
    },
    Loaded {
        why: "it fails where the table is opened",
        catalog: SWEDISH,
        script: b"SELECT 'a' = 'a';",
        swedish: SW,
        german: G2,
        general: GEN,
        failing_reads: &[6],
        status: Status::ReadFault,
        written: b"",
    },
    Loaded {
        why: "it fails where the table is read",
        catalog: SWEDISH,
        script: b"SELECT 'a' = 'a';",
        swedish: SW,
        german: G2,
        general: GEN,
        failing_reads: &[7],
        status: Status::ReadFault,
        written: b"",
    },
    Loaded {
        why: "it fails where the table is read to its end",
        catalog: SWEDISH,
        script: b"SELECT 'a' = 'a';",
        swedish: SW,
        german: G2,
        general: GEN,
        failing_reads: &[8],
        status: Status::ReadFault,
        written: b"",
    },
    Loaded {
        why: "no call behind the table's end",
        catalog: SWEDISH,
        script: b"SELECT 'a' = 'a';",
        swedish: SW,
        german: G2,
        general: GEN,
        failing_reads: &[9],
        status: Status::Done,
        written: b"'a' = 'a'\n1\n",
    },
];

pub(crate) fn file(alloc: Global, name: &[u8], content: &[u8]) -> Result<(Text, Text), NoMemory>
    ensures { IfOk result (λ file. file.0 ≡ name.now) }
{
    Ok((
        Text::from_slice(alloc, name)?,
        Text::from_slice(alloc, content)?,
    ))
}

fn loaded_files(alloc: Global, row: &Loaded) -> Result<MemFiles, NoMemory> {
    let mut files = List::new(alloc);
    files.push(file(alloc, b"cat.txt", row.catalog)?)?;
    files.push(file(alloc, b"s.sql", row.script)?)?;
    files.push(file(alloc, b"sw.txt", row.swedish)?)?;
    files.push(file(alloc, b"g2.txt", row.german)?)?;
    files.push(file(alloc, b"gen.txt", row.general)?)?;
    Ok(MemFiles::new(files, List::from_slice(alloc, row.failing_reads)?))
}

fn is_loaded_so(alloc: Global, row: &Loaded) -> Result<bool, NoMemory> {
    let words = words_of(alloc, &[b"cat.txt", b"s.sql"])?;
    let mut files = loaded_files(alloc, row)?;
    let mut out = MemSink::new(alloc, List::new(alloc));
    let status = status_of(alloc, words.as_slice(), &mut files, &mut out);
    Ok(status == row.status && out.written().as_slice() == row.written)
}

#[test]
fn catalogs_are_loaded_as_worked_out(rt: HostRuntime) {
    for row in &LOADED {
        assert!(rt;
            is_loaded_so(rt.alloc(), row).unwrap_or(false),
            "{}",
            row.why
        );
    }
}
