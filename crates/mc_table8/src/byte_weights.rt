ghost use Rattle.mc_order.specs.Order.{list_order};
ghost use Rattle.mc_order.specs.declared.pad.Pad.TheVariants.{PadSpace as Padded};
ghost use Rattle.mc_table8.specs.Table8Meaning.{second_weight, bytes_weights};
ghost use Rattle.std.specs.Prelude.{◌≡◌, ◌++◌, ◌≤◌, length, take, OnOk, OnErr};

use crate::Table8;
use mc_base::{NoMemory, Weights};
use mc_order::{Pad, WeightStream, compare_streams, order_laws, put_weights, shared_bytes};
use std::cmp::Ordering;

/// The weights of a text of one-byte spellings, and the second weight of the byte just read.
#[derive(Drop)]
pub(crate) struct ByteWeights<'a> {
    table: &'a Table8,
    text: &'a [u8],
    second: Option<u8>,
}

impl<'a> WeightStream for ByteWeights<'a> {
    ghost left = { λ weights. second_weight weights.second
        ++ bytes_weights weights.table.now.entries weights.text.now };

    fn next_weight(&mut self) -> Option<u32> {
        match self.second {
            Some(second) => {
                self.second = None;
                Some(u32::from(second) + 1)
            }
            None => match *self.text {
                [] => None,
                [byte, ..] => {
                    let (first, second) = self.table.weights(byte);
                    self.text = &self.text[1..];
                    self.second = second;
                    Some(u32::from(first) + 1)
                }
            },
        }
    }
}

impl<'a> ByteWeights<'a> {
    /// The weights of this text.
    pub(crate) fn new(table: &'a Table8, text: &'a [u8]) -> ByteWeights<'a>
        ensures entries { result.table.now ≡ table.now }
        ensures whole { result.text.now ≡ text.now }
        ensures none { result.second ≡ None }
    {
        ByteWeights {
            table,
            text,
            second: None,
        }
    }
}

/// The order of two texts by the weights of their bytes. What they have in common in front is
/// passed over.
pub(crate) fn compare_bytes(table: &Table8, a: &[u8], b: &[u8], space: u32) -> Ordering
    ensures { let weights = bytes_weights table.now.entries in
        result ≡ list_order Padded space (weights a.now) (weights b.now) }
{
    order_laws();
    let start = shared_bytes(a, b);
    compare_plain(table, &a[start..], &b[start..], space)
}

/// So, and bytes of one weight each are passed over while their weights are the same.
fn compare_plain(table: &Table8, a: &[u8], b: &[u8], space: u32) -> Ordering
    ensures { let weights = bytes_weights table.now.entries in
        result ≡ list_order Padded space (weights a.now) (weights b.now) }
{
    order_laws();
    let start = plain_front(table, a, b);
    let mut left = ByteWeights::new(table, &a[start..]);
    let mut right = ByteWeights::new(table, &b[start..]);
    compare_streams(&mut left, &mut right, Pad::PadSpace, space)
}

/// How many bytes of one weight each, the same in both texts, stand in front.
#[tactic(auto, using(crate::proofs::Bytes::plain_more))]
fn plain_front(table: &Table8, a: &[u8], b: &[u8]) -> usize
    ensures within_first { result ≤ length a.now }
    ensures within_second { result ≤ length b.now }
    ensures same { let weights = bytes_weights table.now.entries in
        weights (take result a.now) ≡ weights (take result b.now) }
{
    let shorter = a.len().min(b.len());
    for i in 0..shorter {
        let weight = table.plain(a[i]);
        if weight == 0 || weight != table.plain(b[i]) {
            return i;
        }
    }
    shorter
}

/// Appends the weights of the bytes of a text.
pub(crate) fn put_bytes(table: &Table8, text: &[u8], out: &mut Weights) -> Result<(), NoMemory>
    ensures ok { OnOk result
        (out.new ≡ out.old ++ bytes_weights table.now.entries text.now) }
    ensures err { OnErr result (out.new ≡ out.old) }
{
    put_weights(&mut ByteWeights::new(table, text), out)
}
