ghost use Rattle.mc_charset.specs.Chars.{IsWellFormed};
ghost use Rattle.mc_values.specs.Values.{IsTextOfSet};
ghost use Rattle.std.specs.Prelude.{◌≡◌, ◌∷◌, [], All, IfOk};

use mc_base::{List, NoMemory, Refusal, Text};
use mc_charset::{Charset, is_well_formed};
use mc_print::{answer_text, refusal_text};
use mc_values::{Answer, Value};
use std::alloc::Global;

/// A string, and what is written of an answer with it in its only column, `x`.
struct Row {
    why: &'static str,
    charset: Charset,
    text: &'static [u8],
    lines: &'static [u8],
}

const ROWS: [Row; 7] = [
    Row {
        why: "each escape, and bytes beside them that have none",
        charset: Charset::Utf8mb4,
        text: b"\0a\tb\nc\\d\re'",
        lines: b"x\n\\0a\\tb\\nc\\\\d\re'\n",
    },
    Row {
        why: "a string that reads NULL is no NULL, but is written alike",
        charset: Charset::Ascii,
        text: b"NULL",
        lines: b"x\nNULL\n",
    },
    Row {
        why: "bytes are no text, so none is escaped",
        charset: Charset::Binary,
        text: b"\x09\x0A\xAB\xCD",
        lines: b"x\n0x090AABCD\n",
    },
    Row {
        why: "no bytes",
        charset: Charset::Binary,
        text: b"",
        lines: b"x\n0x\n",
    },
    Row {
        why: "latin1 beyond ASCII",
        charset: Charset::Latin1,
        text: b"a\xE9\x80\t",
        lines: b"x\na\xC3\xA9\xE2\x82\xAC\\t\n",
    },
    Row {
        why: "a pair of surrogates, and a backslash of two bytes",
        charset: Charset::Utf16,
        text: b"\xD8\x3D\xDE\x00\x00\\",
        lines: b"x\n\xF0\x9F\x98\x80\\\\\n",
    },
    Row {
        why: "utf8mb3 has the bytes of UTF-8",
        charset: Charset::Utf8mb3,
        text: b"\xE2\x82\xAC",
        lines: b"x\n\xE2\x82\xAC\n",
    },
];

/// An answer of one column `x` and one row with this string.
fn one_cell(alloc: Global, charset: Charset, text: &[u8]) -> Result<Answer, NoMemory>
    requires { IsWellFormed charset text.now }
    ensures { IfOk result (λ answer. All (All IsTextOfSet) answer.rows) }
{
    let mut header = List::new(alloc);
    header.push(Text::from_slice(alloc, b"x")?)?;
    let mut cells = List::new(alloc);
    cells.push(Value::Str {
        charset,
        text: Text::from_slice(alloc, text)?,
    })?;
    let mut rows = List::new(alloc);
    rows.push(cells)?;
    Ok(Answer { header, rows })
}

/// Whether the row's string is written so.
fn is_written(alloc: Global, row: &Row) -> Result<bool, NoMemory> {
    if !is_well_formed(row.charset, row.text) {
        return Ok(false);
    }
    let answer = one_cell(alloc, row.charset, row.text)?;
    Ok(answer_text(alloc, &answer)?.as_slice() == row.lines)
}

#[test]
fn strings(rt: HostRuntime) {
    for row in &ROWS {
        assert!(rt; is_written(rt.alloc(), row).unwrap_or(false), "{}", row.why);
    }
}

/// The headers of two columns.
fn two_headers(alloc: Global) -> Result<List<Text>, NoMemory> {
    let mut header = List::new(alloc);
    header.push(Text::from_slice(alloc, b"a\tb")?)?;
    header.push(Text::from_slice(alloc, b"c")?)?;
    Ok(header)
}

/// A list of two members.
fn two<T: Drop>(alloc: Global, first: T, second: T) -> Result<List<T>, NoMemory>
    ensures { IfOk result (λ list. list ≡ first ∷ second ∷ []) }
{
    let mut list = List::new(alloc);
    list.push(first)?;
    list.push(second)?;
    Ok(list)
}

/// An answer of two columns and two rows: the numbers at both ends, and NULLs.
fn numbers(alloc: Global) -> Result<Answer, NoMemory>
    ensures { IfOk result (λ answer. All (All IsTextOfSet) answer.rows) }
{
    let header = two_headers(alloc)?;
    let first = two(alloc, Value::Int(i64::MIN), Value::Null)?;
    let second = two(alloc, Value::Null, Value::Int(i64::MAX))?;
    let rows = two(alloc, first, second)?;
    Ok(Answer { header, rows })
}

fn numbers_text(alloc: Global) -> Result<Text, NoMemory> {
    let answer = numbers(alloc)?;
    answer_text(alloc, &answer)
}

#[test]
fn headers_numbers_and_nulls(rt: HostRuntime) {
    let text = numbers_text(rt.alloc()).unwrap_or(Text::new(rt.alloc()));
    let lines: &[u8] = b"a\\tb\tc\n-9223372036854775808\tNULL\nNULL\t9223372036854775807\n";
    assert!(rt; text.as_slice() == lines, "two columns and two rows");
}

fn refused(alloc: Global) -> Result<Text, NoMemory> {
    let text = Text::from_slice(alloc, b"Unknown column 'a\nb'")?;
    refusal_text(alloc, &Refusal { number: 1054, text })
}

#[test]
fn refusals(rt: HostRuntime) {
    let line = refused(rt.alloc()).unwrap_or(Text::new(rt.alloc()));
    let wanted: &[u8] = b"ERROR 1054: Unknown column 'a\\nb'\n";
    assert!(rt; line.as_slice() == wanted, "a refusal");
}
