ghost use Rattle.mc_charset.specs.Chars.{chars, IsWellFormed};
ghost use Rattle.mc_strfun.specs.Joins.{allowed_length, joined, joined_with, spelled_within};
ghost use Rattle.mc_values.specs.Values.{within_limit};
ghost use Rattle.std.specs.List.{flat_map, join_by, sum_by};
ghost use Rattle.std.specs.Prelude.{◌≡◌, ◌++◌, ◌+◌, All, IfOk, OnOk, length, map};

use crate::text_like::TextLike;
use mc_base::{List, NoMemory, Text};
use mc_charset::{Charset, chars_law};
use mc_values::GREATEST_STRING;
use std::alloc::Global;

/// The texts one after the other. None exactly where they are together longer than the greatest
/// length of a string.
pub fn concat(alloc: Global, set: Charset, parts: &List<Text>) -> Result<Option<Text>, NoMemory>
    requires { All (IsWellFormed set) parts.now }
    ensures { IfOk result (λ value. value ≡
        spelled_within set (joined (map (chars set) parts.now))) }
{
    concat_texts(alloc, set, parts.as_slice())
}

/// The texts in order with the separator between two. None exactly where that is longer than the
/// greatest length of a string.
pub fn concat_ws(
    alloc: Global,
    set: Charset,
    separator: &Text,
    parts: &List<Text>,
) -> Result<Option<Text>, NoMemory>
    requires separator { IsWellFormed set separator.now }
    requires parts { All (IsWellFormed set) parts.now }
    ensures { IfOk result (λ value. value ≡
        spelled_within set (joined_with (chars set separator.now) (map (chars set) parts.now))) }
{
    concat_texts_ws(alloc, set, separator, parts.as_slice())
}

/// As `concat`, of texts that are owned or lent.
pub fn concat_texts<T: TextLike>(
    alloc: Global,
    set: Charset,
    parts: &[T],
) -> Result<Option<Text>, NoMemory>
    requires { All (λ part. IsWellFormed set (T.bytes part)) parts.now }
    ensures { IfOk result (λ value. value ≡
        spelled_within set (joined (map (λ part. chars set (T.bytes part)) parts.now))) }
{
    chars_law();
    join(alloc, &[], parts)
}

/// As `concat_ws`, of texts that are owned or lent.
pub fn concat_texts_ws<T: TextLike>(
    alloc: Global,
    set: Charset,
    separator: &Text,
    parts: &[T],
) -> Result<Option<Text>, NoMemory>
    requires separator { IsWellFormed set separator.now }
    requires parts { All (λ part. IsWellFormed set (T.bytes part)) parts.now }
    ensures { IfOk result (λ value. value ≡ spelled_within set (joined_with
        (chars set separator.now) (map (λ part. chars set (T.bytes part)) parts.now))) }
{
    chars_law();
    join(alloc, separator.as_slice(), parts)
}

/// The bytes of the parts with those of the separator between two, within the greatest length.
fn join<T: TextLike>(alloc: Global, separator: &[u8], parts: &[T]) -> Result<Option<Text>, NoMemory>
    ensures { IfOk result (λ value.
        value ≡ within_limit (join_by T.bytes separator.now parts.now)) }
{
    let Some((first, others)) = parts.split_first() else {
        return Ok(Some(Text::new(alloc)));
    };
    let first = first.bytes();
    let Some(len) = joined_len(separator.len(), first.len(), others) else {
        return Ok(None);
    };
    Ok(Some(joined_text(alloc, len, separator, first, others)?))
}

/// The first text and the others with the separator before each, in room for so many bytes.
fn joined_text<T: TextLike>(
    alloc: Global,
    len: usize,
    separator: &[u8],
    first: &[u8],
    others: &[T],
) -> Result<Text, NoMemory>
    ensures { IfOk result (λ text.
        text ≡ first.now ++ flat_map (λ part. separator.now ++ T.bytes part) others.now) }
{
    let mut text = Text::new(alloc);
    text.reserve(len)?;
    text.extend_from_slice(first)?;
    push_others(&mut text, separator, others)?;
    Ok(text)
}

/// The length of the first text and of the others with a separator before each, where it is no
/// more than the greatest one.
fn joined_len<T: TextLike>(separator: usize, first: usize, others: &[T]) -> Option<usize>
    ensures { result ≡ allowed_length
        (first + sum_by (λ part. separator + length (T.bytes part)) others.now) }
{
    let mut left = GREATEST_STRING.checked_sub(first)?;
    for part in others {
        left = left
            .checked_sub(separator)?
            .checked_sub(part.bytes().len())?;
    }
    Some(GREATEST_STRING - left)
}

/// Appends the texts, the separator before each.
fn push_others<T: TextLike>(out: &mut Text, separator: &[u8], parts: &[T]) -> Result<(), NoMemory>
    ensures { OnOk result
        (out.new ≡ out.old ++ flat_map (λ part. separator.now ++ T.bytes part) parts.now) }
{
    for part in parts {
        out.extend_from_slice(separator)?;
        out.extend_from_slice(part.bytes())?;
    }
    Ok(())
}
