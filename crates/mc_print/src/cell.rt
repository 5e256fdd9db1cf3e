ghost use Rattle.mc_charset.specs.Chars.{IsWellFormed};
ghost use Rattle.mc_charset.specs.declared.charset.Charset.TheVariants.{Utf8mb4};
ghost use Rattle.mc_convert.specs.Conversion.{converted_text};
ghost use Rattle.mc_print.specs.Cells.{cell, text_cell};
ghost use Rattle.mc_values.specs.Values.{IsTextOfSet};
ghost use Rattle.std.specs.Bool.{OnTrue};
ghost use Rattle.std.specs.Fmt.{signed_decimal};
ghost use Rattle.std.specs.Prelude.{◌≡◌, ◌++◌, OnOk};

use crate::escape::push_escaped;
use itoa::Buffer;
use mc_base::{NoMemory, Text};
use mc_charset::{Charset, chars_law, wider_law};
use mc_convert::{conversion_law, convert};
use mc_values::{Value, ascii_law, push_hex};
use std::alloc::Global;

/// Appends a value as a cell.
#[tactic(auto, unfolding(crate::specs::Cells::cell))]
pub(crate) fn push_cell(alloc: Global, out: &mut Text, value: &Value) -> Result<(), NoMemory>
    requires { IsTextOfSet value.now }
    ensures { OnOk result (out.new ≡ out.old ++ cell value.now) }
{
    match value {
        Value::Null => out.extend_from_slice(b"NULL"),
        Value::Int(number) => push_int(out, *number),
        Value::Str { charset, text } => push_text(alloc, out, *charset, text.as_slice()),
    }
}

/// Appends a number in decimal digits.
fn push_int(out: &mut Text, number: i64) -> Result<(), NoMemory>
    ensures { OnOk result (out.new ≡ out.old ++ signed_decimal number) }
{
    let mut buffer = Buffer::new();
    out.extend_from_slice(buffer.format(number).as_bytes())
}

/// Appends a text of a set as a cell: bytes in hexadecimal digits, characters in UTF-8.
fn push_text(alloc: Global, out: &mut Text, set: Charset, text: &[u8]) -> Result<(), NoMemory>
    requires { IsWellFormed set text.now }
    ensures { OnOk result (out.new ≡ out.old ++ text_cell set text.now) }
{
    if set == Charset::Binary {
        out.extend_from_slice(b"0x")?;
        return push_hex(out, text);
    }
    if is_utf8(set, text) {
        return push_escaped(out, text);
    }
    push_escaped(out, convert(alloc, set, Charset::Utf8mb4, text)?.as_slice())
}

/// Whether the text is seen to have the same bytes in UTF-8, so that it need not be converted.
fn is_utf8(set: Charset, text: &[u8]) -> bool
    requires { IsWellFormed set text.now }
    ensures { OnTrue result (converted_text set Utf8mb4 text.now ≡ text.now) }
{
    chars_law();
    wider_law();
    conversion_law();
    ascii_law();
    match set {
        Charset::Utf8mb3 | Charset::Utf8mb4 => true,
        Charset::Latin1 | Charset::Ascii => text.is_ascii(),
        Charset::Ucs2 | Charset::Utf16 | Charset::Utf32 | Charset::Binary => false,
    }
}
