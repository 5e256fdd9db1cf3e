use crate::catalog_tests::file;
use crate::status::Status;
use crate::tests::{status_of, words_of};
use mc_base::{List, MemFiles, MemSink, NoMemory};
use std::alloc::Global;

const UNICODE: &[u8] = b"collation utf8mb4_unicode_ci utf8mb4 uca400 k4.txt
collation utf8mb4_0900_as_cs utf8mb4 uca900_as_cs k4.txt
";

const K4: &[u8] = b"@version 4.0.0
0020 ; [*0209.0020.0002.0020]
00AD ; [.0000.0000.0000.0000]
0043 ; [.0E60.0020.0008.0043]
0063 ; [.0E60.0020.0002.0063]
0068 ; [.0EE1.0020.0002.0068]
0073 ; [.0FEA.0020.0002.0073]
00DF ; [.0FEA.0020.0004.00DF][.0FEA.0020.0004.00DF]
";

const KC: &[u8] = b"0020 ; [*0209.0020.0002.0020]
00AD ; [.0000.0000.0000.0000]
0063 ; [.0E60.0020.0002.0063]
0068 ; [.0EE1.0020.0002.0068]
0063 0068 ; [.0E61.0020.0002.0063]
";

/// A run over a table of elements and a script: how it ends with what is written.
struct Weighed {
    why: &'static str,
    elements: &'static [u8],
    script: &'static [u8],
    status: Status,
    written: &'static [u8],
}

const WEIGHED: [Weighed; 7] = [
    Weighed {
        why: "a letter of two elements",
        elements: K4,
        script: b"SELECT '\xc3\x9f' = 'ss' COLLATE utf8mb4_unicode_ci;",
        status: Status::Done,
        written: b"'\xc3\x9f' = 'ss' COLLATE utf8mb4_unicode_ci\n1\n",
    },
    Weighed {
        why: "a soft hyphen has no weights",
        elements: K4,
        script: b"SELECT _utf8mb4 X'63C2AD68' COLLATE utf8mb4_unicode_ci = 'ch';",
        status: Status::Done,
        written: b"_utf8mb4 X'63C2AD68' COLLATE utf8mb4_unicode_ci = 'ch'\n1\n",
    },
    Weighed {
        why: "and ends a contraction",
        elements: KC,
        script: b"SELECT _utf8mb4 X'63C2AD68' COLLATE utf8mb4_unicode_ci = 'ch';",
        status: Status::Done,
        written: b"_utf8mb4 X'63C2AD68' COLLATE utf8mb4_unicode_ci = 'ch'\n0\n",
    },
    Weighed {
        why: "the third level",
        elements: K4,
        script: b"SELECT 'C' COLLATE utf8mb4_unicode_ci = 'c';SELECT 'C' COLLATE utf8mb4_0900_as_cs = 'c'",
        status: Status::Done,
        written: b"'C' COLLATE utf8mb4_unicode_ci = 'c'\n1\n'C' COLLATE utf8mb4_0900_as_cs = 'c'\n0\n",
    },
    Weighed {
        why: "a line that ends inside an element",
        elements: b"@version 9.0.0\n@implicitweights 17000..18AFF; FB00\n0009 ; [*0201.00",
        script: b"",
        status: Status::FilesRefused,
        written: b"refused k4.txt BadLine 3\n",
    },
    Weighed {
        why: "a text listed twice",
        elements: b"0020 ; [*0209.0020.0002]\n0061 ; [.1C47.0020.0002]\n0061 ; [.1.1.1]\n",
        script: b"",
        status: Status::FilesRefused,
        written: b"refused k4.txt Repeated 3\n",
    },
    Weighed {
        why: "the space is not listed, and texts are padded",
        elements: b"0061 ; [.0E33.0020.0002.0061]\n",
        script: b"",
        status: Status::FilesRefused,
        written: b"refused k4.txt SpaceWeight 0\n",
    },
];

fn weighed_files(alloc: Global, row: &Weighed) -> Result<MemFiles, NoMemory> {
    let mut files = List::new(alloc);
    files.push(file(alloc, b"cat.txt", UNICODE)?)?;
    files.push(file(alloc, b"s.sql", row.script)?)?;
    files.push(file(alloc, b"k4.txt", row.elements)?)?;
    Ok(MemFiles::new(files, List::new(alloc)))
}

fn is_weighed_so(alloc: Global, row: &Weighed) -> Result<bool, NoMemory> {
    let words = words_of(alloc, &[b"cat.txt", b"s.sql"])?;
    let mut files = weighed_files(alloc, row)?;
    let mut out = MemSink::new(alloc, List::new(alloc));
    let status = status_of(alloc, words.as_slice(), &mut files, &mut out);
    Ok(status == row.status && out.written().as_slice() == row.written)
}

#[test]
fn tables_of_elements_are_loaded_as_worked_out(rt: HostRuntime) {
    for row in &WEIGHED {
        assert!(rt;
            is_weighed_so(rt.alloc(), row).unwrap_or(false),
            "{}",
            row.why
        );
    }
}
