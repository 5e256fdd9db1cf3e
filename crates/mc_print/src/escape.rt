ghost use Rattle.mc_print.specs.Escapes.{as_written, escaped_byte, is_escaped};
ghost use Rattle.std.specs.List.{list_any, position_or_len};
ghost use Rattle.std.specs.Prelude.{◌≡◌, ◌≤◌, ◌++◌, OnOk, length, not};

use mc_base::{NoMemory, Text};

/// How many bytes are looked at in one step.
const BLOCK: usize = 32;

/// Appends a header or a text as it is written.
// The bytes between two escapes are copied as one slice.
#[tactic(auto, unfolding(crate::specs::Escapes::as_written))]
pub(crate) fn push_escaped(out: &mut Text, text: &[u8]) -> Result<(), NoMemory>
    ensures { OnOk result (out.new ≡ out.old ++ as_written text.now) }
{
    let mut rest = text;
    loop {
        let (plain, behind) = rest.split_at(plain_len(rest));
        out.extend_from_slice(plain)?;
        let Some((byte, more)) = behind.split_first() else {
            return Ok(());
        };
        push_escape(out, *byte)?;
        rest = more;
    }
}

/// How many bytes stand before the first one that is written by an escape.
fn plain_len(text: &[u8]) -> usize
    ensures len { result ≡ position_or_len is_escaped text.now }
    ensures within { result ≤ length text.now }
{
    let mut passed = 0;
    while text.len() - passed >= BLOCK && is_plain(&text[passed..passed + BLOCK]) {
        passed += BLOCK;
    }
    passed + first_escape(&text[passed..])
}

/// Whether no byte of a block is written by an escape.
// Neither this nor `is_escaped` leaves early, so that compilers make vector steps of the loop.
fn is_plain(block: &[u8]) -> bool
    ensures { result ≡ not (list_any is_escaped block.now) }
{
    let mut found = false;
    for byte in block {
        found |= is_escaped(*byte);
    }
    !found
}

/// The place of the first byte that is written by an escape, or the length, byte by byte.
fn first_escape(text: &[u8]) -> usize
    ensures len { result ≡ position_or_len is_escaped text.now }
    ensures within { result ≤ length text.now }
{
    for (i, byte) in text.iter().enumerate() {
        if is_escaped(*byte) {
            return i;
        }
    }
    text.len()
}

/// Whether a byte is written by an escape.
#[inline(always)]
fn is_escaped(byte: u8) -> bool
    ensures { result ≡ is_escaped byte }
{
    (byte == b'\0') | (byte == b'\t') | (byte == b'\n') | (byte == b'\\')
}

/// Appends a byte as it is written.
fn push_escape(out: &mut Text, byte: u8) -> Result<(), NoMemory>
    ensures { OnOk result (out.new ≡ out.old ++ escaped_byte byte) }
{
    match byte {
        b'\0' => out.extend_from_slice(b"\\0"),
        b'\t' => out.extend_from_slice(b"\\t"),
        b'\n' => out.extend_from_slice(b"\\n"),
        b'\\' => out.extend_from_slice(b"\\\\"),
        other => out.push(other),
    }
}
