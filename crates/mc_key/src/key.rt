ghost use Rattle.mc_charset.specs.Chars.{IsWellFormed, chars};
ghost use Rattle.mc_key.specs.Keys.{IsKept, kept_list, without_spaces};
ghost use Rattle.mc_order.specs.Meaning.{flat_list, first_chars};
ghost use Rattle.mc_order.specs.Order.{list_order};
ghost use Rattle.std.specs.Prelude.{◌≡◌, ◌≤◌, ◌++◌, IfOk, OnOk, OnErr, length, take};

use mc_base::{NoMemory, Weights};
use mc_order::{Collation, Pad, compare_lists};
use std::alloc::Global;
use std::cmp::Ordering;
use std::marker::Model;

/// What a text, or its front, sorts by under a collation. Contracts see its weights, without the
/// spaces at their end where the collation pads, and the collation's padding and space.
#[derive(Debug, Drop)]
pub struct Key {
    weights: Weights,
    pad: Pad,
    space: u32,
    ghost is_kept: { IsKept pad space weights },
}

impl Model for Key {
    ghost use Rattle.mc_key.specs.Keys.{SeenKey};

    ghost Value = { SeenKey };

    ghost view = { λ key. record {
      weights = key.weights;
      pad = key.pad;
      space = key.space;
      is_kept = key.is_kept;
    } };
}

/// The key of a text, or of its first `first` characters.
pub fn make_key<C: Collation>(
    alloc: Global,
    collation: &C,
    text: &[u8],
    first: Option<u32>,
) -> Result<Key, NoMemory>
    requires { IsWellFormed (C.meaning collation.now).charset text.now }
    ensures weights { let m = C.meaning collation.now in IfOk result (λ key. key.weights
        ≡ kept_list m.pad m.space (flat_list m (first_chars first (chars m.charset text.now)))) }
    ensures pad { IfOk result (λ key. key.pad ≡ (C.meaning collation.now).pad) }
    ensures space { IfOk result (λ key. key.space ≡ (C.meaning collation.now).space) }
{
    let mut weights = Weights::new(alloc);
    weights.reserve(likely_len(text, first))?;
    collation.put_list(text, first, &mut weights)?;
    Ok(key_of(weights, collation.pad(), collation.space()))
}

/// For how many weights room is made at once: one for each byte, or for each of the first
/// characters.
fn likely_len(text: &[u8], first: Option<u32>) -> usize
    ensures { result ≤ length text.now }
{
    match first {
        Some(count) => text.len().min(count as usize),
        None => text.len(),
    }
}

/// Appends what the key of a text keeps, so that the keys of many texts stand in one buffer.
/// Without memory `out` stays as it was.
pub fn put_key<C: Collation>(collation: &C, text: &[u8], out: &mut Weights) -> Result<(), NoMemory>
    requires { IsWellFormed (C.meaning collation.now).charset text.now }
    ensures ok { let m = C.meaning collation.now in OnOk result
        (out.new ≡ out.old ++ kept_list m.pad m.space (flat_list m (chars m.charset text.now))) }
    ensures err { OnErr result (out.new ≡ out.old) }
{
    let start = out.len();
    collation.put_list(text, None, out)?;
    let kept = kept_len(&out.as_slice()[start..], collation.pad(), collation.space());
    out.truncate(start + kept);
    Ok(())
}

/// The key of a list of weights.
#[tactic(auto, using(crate::proofs::Kept::kept_again))]
fn key_of(list: Weights, pad: Pad, space: u32) -> Key
    ensures weights { result.weights ≡ kept_list pad space list }
    ensures pad { result.pad ≡ pad }
    ensures space { result.space ≡ space }
{
    let mut weights = list;
    let len = kept_len(weights.as_slice(), pad, space);
    weights.truncate(len);
    Key {
        weights,
        pad,
        space,
    }
}

/// How many weights of a list are kept.
fn kept_len(list: &[u32], pad: Pad, space: u32) -> usize
    ensures kept { take result list.now ≡ kept_list pad space list.now }
    ensures within { result ≤ length list.now }
{
    match pad {
        Pad::NoPad => list.len(),
        Pad::PadSpace => len_without_spaces(list, space),
    }
}

/// How many weights of a list stand before the spaces at its end.
#[tactic(auto, using(crate::proofs::Kept::steps))]
fn len_without_spaces(list: &[u32], space: u32) -> usize
    ensures kept { take result list.now ≡ without_spaces space list.now }
    ensures within { result ≤ length list.now }
{
    let mut len = list.len();
    while len > 0 {
        if list[len - 1] != space {
            return len;
        }
        len -= 1;
    }
    0
}

/// The order of two keys of one padding and one space: that of their weights. It takes no memory.
pub fn compare_key(a: &Key, b: &Key) -> Ordering
    requires same_pad { a.now.pad ≡ b.now.pad }
    requires same_space { a.now.space ≡ b.now.space }
    ensures { result ≡ list_order a.now.pad a.now.space a.now.weights b.now.weights }
{
    compare_lists(a.as_slice(), b.as_slice(), a.pad, a.space)
}

impl Key {
    /// Its weights: equal keys of one padding and one space have one list.
    pub fn as_slice(&self) -> &[u32]
        ensures { result.now ≡ self.now.weights }
    {
        self.weights.as_slice()
    }

    /// Its padding.
    pub fn pad(&self) -> Pad
        ensures { result ≡ self.now.pad }
    {
        self.pad
    }

    /// The weight of U+0020 where it is padded, else 0.
    pub fn space(&self) -> u32
        ensures { result ≡ self.now.space }
    {
        self.space
    }
}
