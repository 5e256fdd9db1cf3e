use crate::run::run;
use crate::status::Status;
use mc_base::{List, MemFiles, MemSink, NoMemory, Steps, Text};
use std::alloc::Global;

/// Marks the counters of a run.
#[derive(Drop)]
pub struct Mark;

/// A run over one file in memory: its words, the file's name and content, the calls of the files
/// and of the sink that fail, and how it ends with what is written.
struct Row {
    why: &'static str,
    words: &'static [&'static [u8]],
    name: &'static [u8],
    content: &'static [u8],
    failing_reads: &'static [u64],
    failing_writes: &'static [u64],
    status: Status,
    written: &'static [u8],
}

const ROWS: [Row; 19] = [
    Row {
        why: "trailing spaces count for nothing under PAD SPACE",
        words: &[b"s.sql"],
        name: b"s.sql",
        content: b"SELECT 'a' = 'a  ';",
        failing_reads: &[],
        failing_writes: &[],
        status: Status::Done,
        written: b"'a' = 'a  '\n1\n",
    },
    Row {
        why: "TAB sorts below the space, so it counts",
        words: &[b"s.sql"],
        name: b"s.sql",
        content: b"select\n'a\t' = \"a\"",
        failing_reads: &[],
        failing_writes: &[],
        status: Status::Done,
        written: b"'a\\t' = \"a\"\n0\n",
    },
    Row {
        why: "strings side by side, a doubled quote and an escape",
        words: &[b"s.sql"],
        name: b"s.sql",
        content: b"SELECT 'it''s' '\\n' = \"it's\\n\";",
        failing_reads: &[],
        failing_writes: &[],
        status: Status::Done,
        written: b"'it''s' '\\\\n' = \"it's\\\\n\"\n1\n",
    },
    Row {
        why: "a second statement without an end",
        words: &[b"s.sql"],
        name: b"s.sql",
        content: b"SELECT 'a' = 'b';SELECT 1",
        failing_reads: &[],
        failing_writes: &[],
        status: Status::Done,
        written: b"'a' = 'b'\n0\n1\n1\n",
    },
    Row {
        why: "a second statement without a reading is refused",
        words: &[b"s.sql"],
        name: b"s.sql",
        content: b"SELECT 'a' = 'b';SELECT 1 1",
        failing_reads: &[],
        failing_writes: &[],
        status: Status::SomeRefused,
        written: b"'a' = 'b'\n0\nERROR 9001: no reading at byte 26\n",
    },
    Row {
        why: "nothing is left after closed comments",
        words: &[b"s.sql"],
        name: b"s.sql",
        content: b" /* ; */ ;; -- 'a'\n# ;",
        failing_reads: &[],
        failing_writes: &[],
        status: Status::Done,
        written: b"",
    },
    Row {
        why: "the empty script",
        words: &[b"s.sql"],
        name: b"s.sql",
        content: b"",
        failing_reads: &[],
        failing_writes: &[],
        status: Status::Done,
        written: b"",
    },
    Row {
        why: "no words",
        words: &[],
        name: b"s.sql",
        content: b"SELECT 'a' = 'a';",
        failing_reads: &[],
        failing_writes: &[],
        status: Status::Usage,
        written: b"usage: mycoll [CATALOG] SCRIPT | --make N\n",
    },
    Row {
        why: "three words",
        words: &[b"cat.txt", b"s.sql", b"t.sql"],
        name: b"s.sql",
        content: b"",
        failing_reads: &[],
        failing_writes: &[],
        status: Status::Usage,
        written: b"usage: mycoll [CATALOG] SCRIPT | --make N\n",
    },
    Row {
        why: "a first word --make is no catalog",
        words: &[b"--make", b"s.sql"],
        name: b"s.sql",
        content: b"",
        failing_reads: &[],
        failing_writes: &[],
        status: Status::Usage,
        written: b"usage: mycoll [CATALOG] SCRIPT | --make N\n",
    },
    Row {
        why: "a second word --make is a script",
        words: &[b"s.sql", b"--make"],
        name: b"s.sql",
        content: b"",
        failing_reads: &[],
        failing_writes: &[],
        status: Status::FilesRefused,
        written: b"refused --make Absent 0\n",
    },
    Row {
        why: "a missing catalog, before the script",
        words: &[b"cat.txt", b"s.sql"],
        name: b"t.sql",
        content: b"",
        failing_reads: &[1],
        failing_writes: &[],
        status: Status::FilesRefused,
        written: b"refused cat.txt Absent 0\n",
    },
    Row {
        why: "a first word --make is no script",
        words: &[b"--make"],
        name: b"--make",
        content: b"",
        failing_reads: &[],
        failing_writes: &[],
        status: Status::Usage,
        written: b"usage: mycoll [CATALOG] SCRIPT | --make N\n",
    },
    Row {
        why: "a missing script",
        words: &[b"s.sql"],
        name: b"t.sql",
        content: b"",
        failing_reads: &[],
        failing_writes: &[],
        status: Status::FilesRefused,
        written: b"refused s.sql Absent 0\n",
    },
    Row {
        why: "a script that is not UTF-8",
        words: &[b"s.sql"],
        name: b"s.sql",
        content: b"SELECT 1;\xff",
        failing_reads: &[],
        failing_writes: &[],
        status: Status::FilesRefused,
        written: b"refused s.sql NotUtf8 9\n",
    },
    Row {
        why: "opening fails",
        words: &[b"s.sql"],
        name: b"s.sql",
        content: b"SELECT 'a' = 'a';",
        failing_reads: &[0],
        failing_writes: &[],
        status: Status::ReadFault,
        written: b"",
    },
    Row {
        why: "reading fails after the whole script was read",
        words: &[b"s.sql"],
        name: b"s.sql",
        content: b"SELECT 'a' = 'a';",
        failing_reads: &[2],
        failing_writes: &[],
        status: Status::ReadFault,
        written: b"",
    },
    Row {
        why: "the first write fails",
        words: &[b"s.sql"],
        name: b"s.sql",
        content: b"SELECT 'a' = 'a';",
        failing_reads: &[],
        failing_writes: &[0],
        status: Status::WriteFault,
        written: b"",
    },
    Row {
        why: "the second write fails",
        words: &[b"s.sql"],
        name: b"s.sql",
        content: b"SELECT 'a' = 'a';SELECT 'a' = 'b';",
        failing_reads: &[],
        failing_writes: &[1],
        status: Status::WriteFault,
        written: b"'a' = 'a'\n1\n",
    },
];

pub fn words_of(alloc: Global, words: &[&[u8]]) -> Result<List<Text>, NoMemory> {
    let mut list = List::new(alloc);
    for word in words {
        list.push(Text::from_slice(alloc, word)?)?;
    }
    Ok(list)
}

pub fn one_file(
    alloc: Global,
    name: &[u8],
    content: Text,
    fail: &[u64],
) -> Result<MemFiles, NoMemory> {
    let mut files = List::new(alloc);
    files.push((Text::from_slice(alloc, name)?, content))?;
    Ok(MemFiles::new(files, List::from_slice(alloc, fail)?))
}

pub fn status_of(alloc: Global, words: &[Text], files: &mut MemFiles, out: &mut MemSink) -> Status {
    run(
        alloc,
        words,
        files,
        out,
        &mut Steps::start(Mark),
        &mut Steps::start(Mark),
    )
}

fn ends_so(alloc: Global, row: &Row) -> Result<bool, NoMemory> {
    let words = words_of(alloc, row.words)?;
    let content = Text::from_slice(alloc, row.content)?;
    let mut files = one_file(alloc, row.name, content, row.failing_reads)?;
    let mut out = MemSink::new(alloc, List::from_slice(alloc, row.failing_writes)?);
    let status = status_of(alloc, words.as_slice(), &mut files, &mut out);
    Ok(status == row.status && out.written().as_slice() == row.written)
}

#[test]
fn runs_end_as_worked_out(rt: HostRuntime) {
    for row in &ROWS {
        assert!(rt; ends_so(rt.alloc(), row).unwrap_or(false), "{}", row.why);
    }
}

fn refuses_a_long_script(alloc: Global) -> Result<bool, NoMemory> {
    let words = words_of(alloc, &[b"s.sql"])?;
    let bytes = vec![in alloc; b' '; 16_777_217]?;
    let content = Text::from_slice(alloc, bytes.as_slice())?;
    let mut files = one_file(alloc, b"s.sql", content, &[])?;
    let mut out = MemSink::new(alloc, List::new(alloc));
    let status = status_of(alloc, words.as_slice(), &mut files, &mut out);
    let want = b"refused s.sql TooLong 16777216\n".as_slice();
    Ok(status == Status::FilesRefused && out.written().as_slice() == want)
}

#[test]
fn a_script_of_one_byte_too_many_is_refused(rt: HostRuntime) {
    assert!(rt; refuses_a_long_script(rt.alloc()).unwrap_or(false));
}
