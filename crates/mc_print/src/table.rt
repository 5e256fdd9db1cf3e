ghost use Rattle.mc_print.specs.Cells.{cell};
ghost use Rattle.mc_print.specs.Escapes.{as_written};
ghost use Rattle.mc_print.specs.Lines.{answer_text, behind_tab, row_line, tabbed};
ghost use Rattle.mc_values.specs.Values.{IsTextOfSet};
ghost use Rattle.std.specs.List.{flat_map};
ghost use Rattle.std.specs.Prelude.{◌≡◌, ◌++◌, All, IfOk, OnOk};

use crate::cell::push_cell;
use crate::escape::push_escaped;
use mc_base::{NoMemory, Text};
use mc_charset::Charset;
use mc_values::{Answer, Row, Value};
use std::alloc::Global;

/// About how many bytes a cell without a string needs, with the TAB or line feed behind it.
const CELL_ROOM: usize = 8;

/// The answer as it is written: a line of its headers and a line for each row. Its strings are
/// texts of their sets.
pub fn answer_text(alloc: Global, answer: &Answer) -> Result<Text, NoMemory>
    requires { All (All IsTextOfSet) answer.now.rows }
    ensures { IfOk result (λ text. text ≡ answer_text answer.now) }
{
    let mut text = Text::new(alloc);
    push_answer(alloc, &mut text, answer)?;
    Ok(text)
}

/// Appends the answer as it is written, so that one text can take many answers in turn. Where memory
/// runs out, a part of it may stand there.
#[tactic(auto, unfolding(crate::specs::Lines::answer_text))]
pub fn push_answer(alloc: Global, out: &mut Text, answer: &Answer) -> Result<(), NoMemory>
    requires { All (All IsTextOfSet) answer.now.rows }
    ensures { OnOk result (out.new ≡ out.old ++ answer_text answer.now) }
{
    out.reserve(room(answer))?;
    push_header(out, answer.header.as_slice())?;
    out.push(b'\n')?;
    push_rows(alloc, out, answer.rows.as_slice())
}

/// About how many bytes the lines need.
fn room(answer: &Answer) -> usize {
    let mut room = header_room(answer.header.as_slice());
    for row in answer.rows.as_slice() {
        room = room.saturating_add(row_room(row.as_slice()));
    }
    room
}

/// About how many bytes the line of headers needs.
fn header_room(names: &[Text]) -> usize {
    let mut room: usize = 0;
    for name in names {
        room = room.saturating_add(name.len()).saturating_add(CELL_ROOM);
    }
    room
}

/// About how many bytes the line of a row needs.
fn row_room(row: &[Value]) -> usize {
    let mut room: usize = 0;
    for value in row {
        room = room.saturating_add(CELL_ROOM);
        if let Value::Str { charset, text } = value {
            room = room.saturating_add(text_room(*charset, text.len()));
        }
    }
    room
}

/// About how many bytes a string of so many bytes needs: those of binary are written as `0x` and two
/// digits for each.
fn text_room(set: Charset, len: usize) -> usize {
    if set == Charset::Binary {
        len.saturating_mul(2).saturating_add(2)
    } else {
        len
    }
}

/// Appends headers, a TAB between two.
fn push_header(out: &mut Text, names: &[Text]) -> Result<(), NoMemory>
    ensures { OnOk result (out.new ≡ out.old ++ tabbed as_written names.now) }
{
    let Some((first, others)) = names.split_first() else {
        return Ok(());
    };
    push_escaped(out, first.as_slice())?;
    for name in others {
        out.push(b'\t')?;
        push_escaped(out, name.as_slice())?;
    }
    Ok(())
}

/// Appends a line for each row.
fn push_rows(alloc: Global, out: &mut Text, rows: &[Row]) -> Result<(), NoMemory>
    requires { All (All IsTextOfSet) rows.now }
    ensures { OnOk result (out.new ≡ out.old ++ flat_map row_line rows.now) }
{
    for row in rows {
        push_row(alloc, out, row.as_slice())?;
        out.push(b'\n')?;
    }
    Ok(())
}

/// Appends the values of a row, a TAB between two.
fn push_row(alloc: Global, out: &mut Text, row: &[Value]) -> Result<(), NoMemory>
    requires { All IsTextOfSet row.now }
    ensures { OnOk result (out.new ≡ out.old ++ tabbed cell row.now) }
{
    let Some((first, others)) = row.split_first() else {
        return Ok(());
    };
    push_cell(alloc, out, first)?;
    push_more(alloc, out, others)
}

/// Appends values, a TAB before each.
fn push_more(alloc: Global, out: &mut Text, values: &[Value]) -> Result<(), NoMemory>
    requires { All IsTextOfSet values.now }
    ensures { OnOk result (out.new ≡ out.old ++ flat_map (behind_tab cell) values.now) }
{
    for value in values {
        out.push(b'\t')?;
        push_cell(alloc, out, value)?;
    }
    Ok(())
}
