ghost use Rattle.mc_charset.specs.Chars.{chars, IsWellFormed};
ghost use Rattle.mc_like.specs.Items.{items_of};
ghost use Rattle.mc_range.specs.Condition.{IsCellOf};
ghost use Rattle.mc_range.specs.Intervals.{begins_with, like_cell, like_list};
ghost use Rattle.mc_order.specs.Meaning.{AreCharsOf, first_chars};
ghost use Rattle.mc_range.specs.Safe.{is_safe, literal_list};
ghost use Rattle.std.specs.List.{take_while};
ghost use Rattle.std.specs.Prelude.{◌≡◌, Some, IfOk};

use crate::lists::{SEPARATOR, first_list, joined};
use crate::safe::{safe_front, spelled};
use crate::{Cell, Interval};
use mc_base::{List, NoMemory, Weights};
use mc_charset::chars_law;
use mc_key::TOP;
use mc_like::compile;
use mc_order::{Collation, Pad};
use std::alloc::Global;

/// The first list of the longest front of a pattern's literal prefix that is safe throughout and
/// that an index keeps.
fn literal_list<C: Collation>(
    alloc: Global,
    collation: &C,
    prefix: Option<u32>,
    pattern: &[u8],
    escape: Option<u32>,
) -> Result<Weights, NoMemory>
    requires { IsWellFormed (C.meaning collation.now).charset pattern.now }
    ensures { let m = C.meaning collation.now in IfOk result (λ list. list
        ≡ literal_list m prefix (items_of escape (chars m.charset pattern.now))) }
{
    let compiled = compile(alloc, collation.charset(), pattern, escape)?;
    first_list_of(alloc, collation, prefix, compiled.literal_prefix())
}

/// The first list of the longest front of characters that is safe throughout and that an index
/// keeps.
fn first_list_of<C: Collation>(
    alloc: Global,
    collation: &C,
    prefix: Option<u32>,
    codes: &[u32],
) -> Result<Weights, NoMemory>
    requires { AreCharsOf (C.meaning collation.now).charset codes.now }
    ensures { let m = C.meaning collation.now in IfOk result (λ list. list
        ≡ m.level_list 1 (take_while (is_safe m) (first_chars prefix codes.now))) }
{
    list_of_chars(alloc, collation, safe_front(collation, codes, prefix))
}

/// The first list of characters.
fn list_of_chars<C: Collation>(
    alloc: Global,
    collation: &C,
    codes: &[u32],
) -> Result<Weights, NoMemory>
    requires { AreCharsOf (C.meaning collation.now).charset codes.now }
    ensures { let m = C.meaning collation.now in
        IfOk result (λ list. list ≡ m.level_list 1 codes.now) }
{
    chars_law();
    let text = spelled(alloc, collation.charset(), codes)?;
    first_list(alloc, collation, text.as_slice())
}

/// The interval of the lists that begin with this one.
fn begins_with(alloc: Global, pad: Pad, list: &[u32]) -> Result<Interval, NoMemory>
    ensures { IfOk result (λ interval. interval ≡ begins_with pad list.now) }
{
    let behind: &[u32] = match pad {
        Pad::NoPad => &[],
        Pad::PadSpace => &[SEPARATOR],
    };
    let low = joined(alloc, list, &[], behind)?;
    let high = joined(alloc, list, &[], &[TOP])?;
    Ok(Interval {
        lo: Some(low),
        hi: Some(high),
    })
}

/// The interval of texts that match a pattern whose literal prefix has this list, if it has
/// weights.
fn like_list(alloc: Global, pad: Pad, list: &[u32]) -> Result<Option<List<Interval>>, NoMemory>
    ensures { IfOk result (λ found. found ≡ like_list pad list.now) }
{
    if list.is_empty() {
        return Ok(None);
    }
    let mut out = List::new(alloc);
    out.push(begins_with(alloc, pad, list)?)?;
    Ok(Some(out))
}

/// The intervals of texts that match a pattern, if its literal prefix has weights to begin with.
pub(crate) fn like<C: Collation>(
    alloc: Global,
    collation: &C,
    prefix: Option<u32>,
    pattern: &Cell,
    escape: Option<u32>,
) -> Result<Option<List<Interval>>, NoMemory>
    requires { IsCellOf (C.meaning collation.now).charset pattern.now }
    ensures { IfOk result (λ found. found
        ≡ like_cell (C.meaning collation.now) prefix pattern.now escape) }
{
    let Cell::Str(text) = pattern else {
        return Ok(Some(List::new(alloc)));
    };
    let list = literal_list(alloc, collation, prefix, text.as_slice(), escape)?;
    like_list(alloc, collation.pad(), list.as_slice())
}
