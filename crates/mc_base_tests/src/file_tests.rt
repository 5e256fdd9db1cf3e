use mc_base::{
    FileFault, LineReader, List, MemFiles, MemSink, NoMemory, PutAnswer, ReadWhole, RealFiles,
    RealSink, Sink, Text, hex_number, next_field, read_file, read_whole,
};
use std::alloc::Global;
use std::fs;

/// A file read whole: the calls that fail, the file's name, the limit, and what is read.
struct Row {
    why: &'static str,
    fail: &'static [u64],
    name: &'static [u8],
    limit: u64,
    want: Result<&'static [u8], ReadWhole>,
}

const ROWS: [Row; 6] = [
    Row {
        why: "the whole content",
        fail: &[],
        name: b"a",
        limit: 3,
        want: Ok(b"xyz"),
    },
    Row {
        why: "a file of no bytes",
        fail: &[],
        name: b"b",
        limit: 0,
        want: Ok(b""),
    },
    Row {
        why: "one byte too many",
        fail: &[],
        name: b"a",
        limit: 2,
        want: Err(ReadWhole::TooLong),
    },
    Row {
        why: "no such name",
        fail: &[],
        name: b"c",
        limit: 3,
        want: Err(ReadWhole::Absent),
    },
    Row {
        why: "the open fails",
        fail: &[0],
        name: b"c",
        limit: 3,
        want: Err(ReadWhole::Fault),
    },
    Row {
        why: "the read after all bytes fails",
        fail: &[2],
        name: b"a",
        limit: 3,
        want: Err(ReadWhole::Fault),
    },
];

fn memory_files(alloc: Global, fail: &[u64]) -> Result<MemFiles, NoMemory> {
    let mut files = List::new(alloc);
    files.push((
        Text::from_slice(alloc, b"a")?,
        Text::from_slice(alloc, b"xyz")?,
    ))?;
    files.push((Text::from_slice(alloc, b"b")?, Text::new(alloc)))?;
    Ok(MemFiles::new(files, List::from_slice(alloc, fail)?))
}

fn reads(alloc: Global, row: &Row) -> Result<bool, NoMemory> {
    let mut files = memory_files(alloc, row.fail)?;
    let name = Text::from_slice(alloc, row.name)?;
    let read = read_whole(alloc, &mut files, &name, row.limit);
    Ok(match (read, row.want) {
        (Ok(text), Ok(want)) => text.as_slice() == want,
        (Err(error), Err(want)) => error == want,
        _ => false,
    })
}

#[test]
fn memory_files_are_read_whole(rt: HostRuntime) {
    for row in &ROWS {
        assert!(rt; reads(rt.alloc(), row).unwrap_or(false), "{}", row.why);
    }
}

fn reads_or_refuses(alloc: Global) -> Result<bool, NoMemory> {
    let mut files = memory_files(alloc, &[])?;
    let there = read_file(alloc, &mut files, &Text::from_slice(alloc, b"a")?);
    let absent = read_file(alloc, &mut files, &Text::from_slice(alloc, b"c")?);
    Ok(
        matches!(&there, Ok(text) if text.as_slice() == b"xyz".as_slice())
            && matches!(&absent, Err(FileFault::Refused(refusal))
                if refusal.name.as_slice() == b"c".as_slice()
                    && refusal.fault.as_slice() == b"Absent".as_slice()
                    && refusal.at == 0),
    )
}

#[test]
fn a_file_is_read_or_refused(rt: HostRuntime) {
    assert!(rt; reads_or_refuses(rt.alloc()).unwrap_or(false));
}

fn sink_answers(alloc: Global) -> Result<bool, NoMemory> {
    let mut sink = MemSink::new(alloc, List::from_slice(alloc, &[1])?);
    let answers = [sink.put(b"ab"), sink.put(b"cd"), sink.put(b"e")];
    let want = [PutAnswer::Done, PutAnswer::Failed, PutAnswer::Done];
    Ok(answers == want && sink.written().as_slice() == b"abe".as_slice())
}

#[test]
fn a_sink_in_memory_fails_as_planned(rt: HostRuntime) {
    assert!(rt; sink_answers(rt.alloc()).unwrap_or(false));
}

fn read_real(rt: HostRuntime, name: &[u8], limit: u64) -> Result<Text, ReadWhole> {
    let name = Text::from_slice(rt.alloc(), name)?;
    read_whole(rt.alloc(), &mut RealFiles::new(rt), &name, limit)
}

#[test]
fn real_files_are_read_whole(rt: HostRuntime) {
    let name = b"mc_base_test.txt";
    assert!(rt; fs::write(&rt, "mc_base_test.txt", "line\n").is_ok());
    let whole = read_real(rt, name, 5);
    assert!(rt;
        matches!(&whole, Ok(text) if text.as_slice() == b"line\n".as_slice()),
        "the content"
    );
    let refusals: [(&[u8], u64, ReadWhole, &str); 4] = [
        (name, 4, ReadWhole::TooLong, "one byte too many"),
        (b"mc_base_missing.txt", 5, ReadWhole::Absent, "no such file"),
        (b"\xff", 5, ReadWhole::Absent, "a name that is not UTF-8"),
        (b".", 5, ReadWhole::Fault, "a directory"),
    ];
    for (name, limit, want, why) in refusals {
        let read = read_real(rt, name, limit);
        assert!(rt; matches!(&read, Err(error) if *error == want), "{why}");
    }
    assert!(rt; fs::remove_file(&rt, "mc_base_test.txt").is_ok());
}

#[test]
fn standard_output_takes_a_line(rt: HostRuntime) {
    let answer = RealSink::new(rt).put(b"a line\n");
    assert!(rt; answer == PutAnswer::Done);
}

#[test]
fn lines_and_fields_are_cut(rt: HostRuntime) {
    let mut reader = LineReader::new(b"a  b # c\r\n\n\tx\t\r\n#\nlast\r");
    let want: [(u32, &[u8]); 3] = [(1, b"a  b"), (3, b"x"), (5, b"last\r")];
    for (number, body) in want {
        let line = reader.next_line();
        assert!(rt;
            matches!(line, Some(l) if l.number == number && l.body == body),
            "{number}"
        );
    }
    assert!(rt; reader.next_line().is_none(), "the end");
    let field = next_field(b" a  b");
    assert!(rt;
        matches!(field, Some((first, rest))
            if first == b"a".as_slice() && rest == b"  b".as_slice())
    );
    assert!(rt;
        hex_number(b"10fFfF") == Some(1_114_111),
        "the greatest code point"
    );
    assert!(rt; hex_number(b"1000000").is_none(), "seven digits");
}
