ghost use Rattle.mc_strfun.specs.Numbers.{natural};
ghost use Rattle.mc_values.specs.Values.{greatest_string, within_limit};
ghost use Rattle.std.specs.List.{repeat};
ghost use Rattle.std.specs.Prelude.{◌≡◌, ◌++◌, ◌*◌, ◌<◌, ◌≤◌, IfOk, OnOk, length};

use crate::number::natural;
use mc_base::{NoMemory, Text};
use mc_values::GREATEST_STRING;
use std::alloc::Global;

/// `count` copies of the text, none where `count` is below 1. None exactly where they are longer
/// than the greatest length of a string.
pub fn repeat(alloc: Global, text: &Text, count: i64) -> Result<Option<Text>, NoMemory>
    ensures { IfOk result (λ value. value ≡ within_limit (repeat (natural count) text.now)) }
{
    if text.is_empty() {
        return Ok(Some(Text::new(alloc)));
    }
    let count = natural(count);
    if count > (GREATEST_STRING / text.len()) as u64 {
        return Ok(None);
    }
    Ok(Some(copies_of(alloc, text.as_slice(), count as usize)?))
}

/// So many copies.
fn copies_of(alloc: Global, text: &[u8], count: usize) -> Result<Text, NoMemory>
    requires { count * length text.now ≤ greatest_string }
    ensures { IfOk result (λ copies. copies ≡ repeat count text.now) }
{
    let mut copies = Text::new(alloc);
    copies.reserve(text.len() * count)?;
    push_copies(alloc, &mut copies, text, count)?;
    Ok(copies)
}

/// How long the text of copies is that is appended at once.
const BLOCK: usize = 2048;

/// Appends so many copies, those of a short text in blocks.
pub(crate) fn push_copies(
    alloc: Global,
    out: &mut Text,
    text: &[u8],
    count: usize,
) -> Result<(), NoMemory>
    ensures { OnOk result (out.new ≡ out.old ++ repeat count text.now) }
{
    let each = copies_in_block(text.len());
    if each < 2 || count / each < 4 {
        return push_each(out, text, count);
    }
    push_blocks(alloc, out, text, each, count)
}

/// How many copies of a text of this length a block has, at least one.
fn copies_in_block(len: usize) -> usize
    ensures { 0 < result }
{
    (BLOCK / len.max(1)).max(1)
}

/// Appends so many copies, `each` of them at once, and then those that are left.
fn push_blocks(
    alloc: Global,
    out: &mut Text,
    text: &[u8],
    each: usize,
    count: usize,
) -> Result<(), NoMemory>
    requires { 0 < each }
    ensures { OnOk result (out.new ≡ out.old ++ repeat count text.now) }
{
    let mut block = Text::new(alloc);
    block.reserve(BLOCK)?;
    push_each(&mut block, text, each)?;
    push_each(out, block.as_slice(), count / each)?;
    push_each(out, text, count % each)
}

/// Appends so many copies one after the other.
fn push_each(out: &mut Text, text: &[u8], count: usize) -> Result<(), NoMemory>
    ensures { OnOk result (out.new ≡ out.old ++ repeat count text.now) }
{
    for _copy in 0..count {
        out.extend_from_slice(text)?;
    }
    Ok(())
}
