use mc_allkeys::{KeysFault, read_allkeys};
use mc_base::NoMemory;
use std::alloc::Global;

/// A fault that a file has.
#[derive(Clone, Copy, PartialEq, Eq)]
enum Fault {
    BadLine(u32),
    TooLong(u32),
    TooMany(u32),
    Repeated(u32),
    TooManyContractions(u32),
    Other,
}

/// A file, and its fault if it has one.
struct Row {
    text: &'static [u8],
    fault: Option<Fault>,
    why: &'static str,
}

const ROWS: [Row; 17] = [
    Row {
        text: b"@version 9.0.0\n@implicitweights 17000..18AFF; FB00\n0009 ; [*0201.00",
        fault: Some(Fault::BadLine(3)),
        why: "cut off in an element",
    },
    Row {
        text: b"# nothing\r\n\n@version 4.0.0\r\n 0009\t;\t[*0201.0020.0002.0009] \r\n",
        fault: None,
        why: "blanks, comments and CR LF",
    },
    Row {
        text: b"0061 ; [.1.2.3]\n0062 ; [.1.2.3]\n0061 ; [.1.2.3]",
        fault: Some(Fault::Repeated(3)),
        why: "a text twice",
    },
    Row {
        text: b"61 62 63 64 65 66 ; [.1.2.3]\n61 62 63 64 65 66 67 ; [.1.2.3]",
        fault: Some(Fault::TooLong(2)),
        why: "seven code points",
    },
    Row {
        text: b"61;[.1.2.3][.1.2.3][.1.2.3][.1.2.3][.1.2.3][.1.2.3][.1.2.3][.1.2.3][.1.2.3][.1.2.3][.1.2.3][.1.2.3][.1.2.3][.1.2.3][.1.2.3][.1.2.3][.1.2.3][.1.2.3][.1.2.3][.1.2.3][.1.2.3][.1.2.3][.1.2.3][.1.2.3][.1.2.3][.1.2.3][.1.2.3][.1.2.3][.1.2.3][.1.2.3][.1.2.3][.1.2.3][.1.2.3]",
        fault: Some(Fault::TooMany(1)),
        why: "33 elements",
    },
    Row {
        text: b"D800 61 61 61 61 61 61 ; [.1.2.3]\nD800 61 61 61 61 61 61 ; [.1.2.3]",
        fault: None,
        why: "a surrogate's line counts for nothing",
    },
    Row {
        text: b"DFFF ; [.1.2]",
        fault: Some(Fault::BadLine(1)),
        why: "a surrogate's line has a form",
    },
    Row {
        text: b"110000 ; [.1.2.3]",
        fault: Some(Fault::BadLine(1)),
        why: "no code point",
    },
    Row {
        text: b"0061 ;",
        fault: Some(Fault::BadLine(1)),
        why: "no element",
    },
    Row {
        text: b"; [.1.2.3]",
        fault: Some(Fault::BadLine(1)),
        why: "no code point before the semicolon",
    },
    Row {
        text: b"0061 ; [.1.2.3.4.5]",
        fault: Some(Fault::BadLine(1)),
        why: "five numbers",
    },
    Row {
        text: b"0061 ; [.1.2.3] x",
        fault: Some(Fault::BadLine(1)),
        why: "something behind the elements",
    },
    Row {
        text: b"@implicitweights 17000..1EFFF; FB00\n@implicitweights 17000..1F000; FB00",
        fault: Some(Fault::BadLine(2)),
        why: "8000 above the start of the base",
    },
    Row {
        text: b"@implicitweights 17000..17000; FB00\n@implicitweights 16FFF..17000; FB00",
        fault: Some(Fault::BadLine(2)),
        why: "below the start of the base",
    },
    Row {
        text: b"@implicitweights 17001..17000; FB00",
        fault: Some(Fault::BadLine(1)),
        why: "a range that ends below its start",
    },
    Row {
        text: b"@implicitweights 17000..17001;FB00",
        fault: Some(Fault::BadLine(1)),
        why: "two fields",
    },
    Row {
        text: b"@rest \xC3",
        fault: Some(Fault::BadLine(1)),
        why: "a byte above 7F",
    },
];

fn fault_of(alloc: Global, text: &[u8]) -> Option<Fault> {
    if text.len() > 1_000_000 {
        return Some(Fault::Other);
    }
    match read_allkeys(alloc, text) {
        Ok(_) => None,
        Err(KeysFault::BadLine(line)) => Some(Fault::BadLine(line)),
        Err(KeysFault::TooLongContraction(line)) => Some(Fault::TooLong(line)),
        Err(KeysFault::TooManyElements(line)) => Some(Fault::TooMany(line)),
        Err(KeysFault::Repeated(line)) => Some(Fault::Repeated(line)),
        Err(KeysFault::TooManyContractions(line)) => Some(Fault::TooManyContractions(line)),
        Err(_) => Some(Fault::Other),
    }
}

#[test]
fn faults_are_told(rt: HostRuntime) {
    for row in &ROWS {
        assert!(rt; fault_of(rt.alloc(), row.text) == row.fault, "{}", row.why);
    }
}

/// The hexadecimal digits.
const DIGITS: [u8; 16] = *b"0123456789ABCDEF";

/// The last hexadecimal digit of a number.
fn digit(number: u32) -> u8 {
    DIGITS[(number % 16) as usize]
}

/// A file of so many contractions, each of U+0061 and a code point of four digits.
fn contractions(alloc: Global, count: u32) -> Result<Vec<u8>, NoMemory> {
    let mut text = Vec::new(alloc);
    for number in 0..count {
        text.extend_from_slice(b"0061 ".as_slice())?;
        text.push(digit(number / 4096))?;
        text.push(digit(number / 256))?;
        text.push(digit(number / 16))?;
        text.push(digit(number))?;
        text.extend_from_slice(b" ; [.1.2.3]\n".as_slice())?;
    }
    Ok(text)
}

/// The fault of a file of so many contractions.
fn fault_of_contractions(alloc: Global, count: u32) -> Option<Fault> {
    match contractions(alloc, count) {
        Ok(text) => fault_of(alloc, text.as_slice()),
        Err(NoMemory) => Some(Fault::Other),
    }
}

#[test]
fn contractions_are_counted(rt: HostRuntime) {
    assert!(rt;
        fault_of_contractions(rt.alloc(), 4096).is_none(),
        "4,096 contractions are taken"
    );
    assert!(rt;
        fault_of_contractions(rt.alloc(), 4097) == Some(Fault::TooManyContractions(4097)),
        "one more is refused, at its line"
    );
}
