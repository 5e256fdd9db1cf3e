ghost use Rattle.mc_charset.specs.Chars.{IsWellFormed};
ghost use Rattle.std.specs.Prelude.{◌<◌, ◌^◌, All, IfOk, IfSome, length};

use mc_base::{List, NoMemory, Text};
use mc_charset::Charset;
use mc_strfun::{
    Side, concat, concat_ws, hex, left, lpad, repeat, replace, reverse, right, rpad, substring,
    trim,
};
use std::alloc::Global;

/// A call on a text, and on one or two others where it takes them.
#[derive(Clone, Copy, Debug, PartialEq, Eq)]
pub(crate) enum Call {
    /// The text and the second one.
    Concat,
    /// The text and the second one, the third between them.
    ConcatWs,
    Substring(i64, Option<i64>),
    Left(i64),
    Right(i64),
    /// The second text is removed.
    Trim(Side),
    /// The second text is the pad.
    Lpad(i64),
    Rpad(i64),
    Repeat(i64),
    Reverse,
    /// The second text is replaced by the third.
    Replace,
    Hex,
}

/// Two texts as a list.
fn both(alloc: Global, set: Charset, one: &Text, other: &Text) -> Result<List<Text>, NoMemory>
    requires one { IsWellFormed set one.now }
    requires other { IsWellFormed set other.now }
    ensures { IfOk result (All (IsWellFormed set)) }
{
    let mut parts = List::new(alloc);
    parts.push(Text::from_slice(alloc, one.as_slice())?)?;
    parts.push(Text::from_slice(alloc, other.as_slice())?)?;
    Ok(parts)
}

/// The text, as a value.
fn given(text: Result<Text, NoMemory>) -> Result<Option<Text>, NoMemory> {
    match text {
        Ok(text) => Ok(Some(text)),
        Err(NoMemory) => Err(NoMemory),
    }
}

/// CONCAT or CONCAT_WS of two texts.
fn joined(
    alloc: Global,
    set: Charset,
    separator: Option<&Text>,
    one: &Text,
    other: &Text,
) -> Result<Option<Text>, NoMemory>
    requires separator { IfSome separator (λ it. IsWellFormed set it.now) }
    requires one { IsWellFormed set one.now }
    requires other { IsWellFormed set other.now }
{
    let parts = both(alloc, set, one, other)?;
    match separator {
        None => concat(alloc, set, &parts),
        Some(separator) => concat_ws(alloc, set, separator, &parts),
    }
}

/// What the call gives.
pub(crate) fn answer(
    alloc: Global,
    set: Charset,
    call: Call,
    text: &Text,
    second: &Text,
    third: &Text,
) -> Result<Option<Text>, NoMemory>
    requires text { IsWellFormed set text.now }
    requires second { IsWellFormed set second.now }
    requires third { IsWellFormed set third.now }
    requires text_below_4_gib { length text.now < 2 ^ 32 }
    requires second_below_4_gib { length second.now < 2 ^ 32 }
{
    match call {
        Call::Concat => joined(alloc, set, None, text, second),
        Call::ConcatWs => joined(alloc, set, Some(third), text, second),
        Call::Substring(first, count) => given(substring(alloc, set, text, first, count)),
        Call::Left(count) => given(left(alloc, set, text, count)),
        Call::Right(count) => given(right(alloc, set, text, count)),
        Call::Trim(side) => given(trim(alloc, set, side, second, text)),
        Call::Lpad(count) => lpad(alloc, set, text, count, second),
        Call::Rpad(count) => rpad(alloc, set, text, count, second),
        Call::Repeat(count) => repeat(alloc, text, count),
        Call::Reverse => given(reverse(alloc, set, text)),
        Call::Replace => replace(alloc, set, text, second, third),
        Call::Hex => hex(alloc, text),
    }
}
