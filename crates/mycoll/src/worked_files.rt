ghost use Rattle.std.specs.Prelude.{◌≡◌, IfOk};

use crate::catalog_tests::file;
use crate::run::run;
use crate::status::Status;
use crate::tests::{Mark, status_of, words_of};
use mc_base::{List, MemFiles, MemSink, NoMemory, Steps, Text};
use std::alloc::Global;

// Excerpts with few characters, and no copy of a published table.

/// The lines of the catalog in parts, each with the index line that stands behind it.
const CATALOG: [(&[u8], &[u8]); 4] = [
    (
        b"collation utf8mb4_0900_ai_ci utf8mb4 uca900_ai_ci k9.txt
collation utf8mb4_0900_as_cs utf8mb4 uca900_as_cs k9.txt
collation utf8mb4_unicode_ci utf8mb4 uca400 k4.txt
collation ucs2_unicode_ci ucs2 uca400 k4.txt
collation latin1_swedish_ci latin1 table8 sw.txt
collation latin1_german1_ci latin1 table8 g1.txt
collation latin1_german2_ci latin1 table8 g2.txt
collation utf8mb4_general_ci utf8mb4 general gen.txt
connection utf8mb4_0900_ai_ci
table p p.csv
column id bigint
column name varchar 20 utf8mb4_0900_ai_ci
",
        b"index name10 name 10\n",
    ),
    (
        b"table m m.csv
column a varchar 10 latin1_swedish_ci
column b varchar 10 latin1_german1_ci
column c varchar 10 ascii_bin
column d varchar 10 utf8mb3_bin
column e varchar 10 utf16_bin
column f varchar 10 utf8mb4_unicode_ci
table s s.csv
column name varchar 8 utf8mb4_unicode_ci
",
        b"index s1 name 1\n",
    ),
    (
        b"table n n.csv
column id bigint
column name varchar 8 utf8mb4_bin
",
        b"index nn name\n",
    ),
    (b"table z z.csv\ncolumn name varchar 8 utf8mb4_bin\n", b""),
];

pub(crate) const K9: &[u8] = b"@version 9.0.0
@implicitweights 17000..18AFF; FB00
0009 ; [*0201.0020.0002]
0020 ; [*0209.0020.0002]
00AD ; [.0000.0000.0000]
0041 ; [.1C47.0020.0008]
0061 ; [.1C47.0020.0002]
00E4 ; [.1C47.0020.0002][.0000.002B.0002]
0042 ; [.1C60.0020.0008]
0062 ; [.1C60.0020.0002]
0065 ; [.1CAA.0020.0002]
0069 ; [.1D32.0020.0002]
006C ; [.1D77.0020.0002]
004D ; [.1DAA.0020.0008]
006D ; [.1DAA.0020.0002]
0072 ; [.1E33.0020.0002]
0075 ; [.1EB5.0020.0002]
00FC ; [.1EB5.0020.0002][.0000.002B.0002]
";

pub(crate) const K4: &[u8] = b"@version 4.0.0
0009 ; [*0201.0020.0002.0009]
0020 ; [*0209.0020.0002.0020]
00AD ; [.0000.0000.0000.0000]
0041 ; [.0E33.0020.0008.0041]
0061 ; [.0E33.0020.0002.0061]
0062 ; [.0E4A.0020.0002.0062]
0043 ; [.0E60.0020.0008.0043]
0063 ; [.0E60.0020.0002.0063]
0068 ; [.0EE1.0020.0002.0068]
0073 ; [.0FEA.0020.0002.0073]
00DF ; [.0FEA.0020.0004.00DF][.0FEA.0020.0004.00DF]
007A ; [.106A.0020.0002.007A]
";

const SW: &[u8] = b"default =\n61..7A @ 41\n";

const G1: &[u8] = b"default =\n61..7A @ 41\nC4 41\nE4 41\nDF 53\n";

const G2: &[u8] =
    b"default =\n61..7A @ 41\nC4 41 45\nE4 41 45\nD6 4F 45\nF6 4F 45\nDC 55 45\nFC 55 45\nDF 53 53\n";

const GEN: &[u8] = b"0061..007A @ 0041\n00DF 0053\n";

const P: &[u8] = b"1,M\xc3\xbcller\n2,Mueller\n3,m\xc3\xbcller\n4,Meier\n5,\\N\n6,Muller\n";

pub(crate) const M: &[u8] = b"a,a,a,a,a,a\n";

const S: &[u8] = b"a\t\na\na  \t\nb\n\xc3\x9f\nss\ns\n";

const N: &[u8] = b"1,y\n0,x\n";

/// The catalog of all tables, with their indexes or without.
fn catalog_of(alloc: Global, indexed: bool) -> Result<Text, NoMemory> {
    let mut text = Text::new(alloc);
    for (lines, index) in &CATALOG {
        text.extend_from_slice(lines)?;
        if indexed {
            text.extend_from_slice(index)?;
        }
    }
    Ok(text)
}

/// The files of a run over all tables: its catalog and script, and the rows of `m`.
fn all_files(
    alloc: Global,
    catalog: &[u8],
    script: &[u8],
    mixed: &[u8],
) -> Result<MemFiles, NoMemory> {
    let mut files = List::new(alloc);
    files.push(file(alloc, b"cat.txt", catalog)?)?;
    files.push(file(alloc, b"s.sql", script)?)?;
    files.push(file(alloc, b"k9.txt", K9)?)?;
    files.push(file(alloc, b"k4.txt", K4)?)?;
    files.push(file(alloc, b"sw.txt", SW)?)?;
    files.push(file(alloc, b"g1.txt", G1)?)?;
    files.push(file(alloc, b"g2.txt", G2)?)?;
    files.push(file(alloc, b"gen.txt", GEN)?)?;
    files.push(file(alloc, b"p.csv", P)?)?;
    files.push(file(alloc, b"m.csv", mixed)?)?;
    files.push(file(alloc, b"s.csv", S)?)?;
    files.push(file(alloc, b"n.csv", N)?)?;
    files.push(file(alloc, b"z.csv", b"")?)?;
    Ok(MemFiles::new(files, List::new(alloc)))
}

/// Whether a run over all tables ends so.
pub(crate) fn ends_so(
    alloc: Global,
    script: &[u8],
    mixed: &[u8],
    status: Status,
    written: &[u8],
) -> Result<bool, NoMemory> {
    let words = words_of(alloc, &[b"cat.txt", b"s.sql"])?;
    let catalog = catalog_of(alloc, true)?;
    let mut files = all_files(alloc, catalog.as_slice(), script, mixed)?;
    let mut out = MemSink::new(alloc, List::new(alloc));
    let ends = status_of(alloc, words.as_slice(), &mut files, &mut out);
    Ok(ends == status && out.written().as_slice() == written)
}

/// How many rows a run over these files fetches, if it ends so. Comparisons tick `work`.
pub(crate) fn rows_fetched(
    alloc: Global,
    files: &mut MemFiles,
    status: Status,
    written: &[u8],
    work: &mut Steps<Mark>,
) -> Result<Option<u64>, NoMemory> {
    let words = words_of(alloc, &[b"cat.txt", b"s.sql"])?;
    let mut out = MemSink::new(alloc, List::new(alloc));
    let mut steps = Steps::start(Mark);
    let ends = run(alloc, words.as_slice(), files, &mut out, work, &mut steps);
    if ends == status && out.written().as_slice() == written {
        Ok(Some(steps.count()))
    } else {
        Ok(None)
    }
}

/// How many rows a run over all tables fetches, with their indexes or without, if it ends so.
/// Comparisons tick `work`.
pub(crate) fn rows_fetched_of_all(
    alloc: Global,
    indexed: bool,
    script: &[u8],
    status: Status,
    written: &[u8],
    work: &mut Steps<Mark>,
) -> Result<Option<u64>, NoMemory> {
    let catalog = catalog_of(alloc, indexed)?;
    let mut files = all_files(alloc, catalog.as_slice(), script, M)?;
    rows_fetched(alloc, &mut files, status, written, work)
}
