ghost use Rattle.mc_table8.specs.PlainWeights.{ArePlain, plain_weight};
ghost use Rattle.mc_table8.specs.Table8.{IsByteEntry, byte_entry};
ghost use Rattle.std.specs.Prelude.{◌≡◌, ℕ, ◌<◌, Some, None, length};

use mc_base::List;
use std::marker::Model;

/// The weights of the 256 bytes: one or two each, and one alone for the byte 20 of U+0020 (MySQL
/// 8.0 manual, 10.14.3). Contracts see the list of them.
#[derive(Debug, Drop)]
pub struct Table8 {
    entries: List<(u8, Option<u8>)>,
    plain: [u16; 256],
    ghost all_bytes: { length entries ≡ 256 },
    ghost fits: { (byte : ℕ) → IsByteEntry (byte_entry entries byte) },
    ghost one_for_space: { (byte_entry entries 0x20).1 ≡ None },
    ghost are_plain: { ArePlain plain entries },
}

impl Model for Table8 {
    ghost use Rattle.mc_table8.specs.Table8.{ByteTable};

    ghost Value = { ByteTable };

    ghost view = { λ table. record {
      entries = table.entries;
      all_bytes = table.all_bytes;
      fits = table.fits;
      one_for_space = table.one_for_space;
    } };
}

impl Table8 {
    /// The table of these entries, one for each byte in order.
    pub(crate) fn new(entries: List<(u8, Option<u8>)>) -> Table8
        requires all_bytes { length entries ≡ 256 }
        requires one_for_space { (byte_entry entries 0x20).1 ≡ None }
        ensures { result.entries ≡ entries }
    {
        each_fits(entries.as_slice());
        let plain = plain_weights(entries.as_slice());
        Table8 { entries, plain }
    }

    /// The weight of a byte, and the second one where it has two.
    pub fn weights(&self, byte: u8) -> (u8, Option<u8>)
        ensures { result ≡ byte_entry self.now.entries byte }
    {
        self.entries.as_slice()[usize::from(byte)]
    }

    /// The weight plus 1 of a byte that has one weight, else 0.
    #[inline(always)]
    pub(crate) fn plain(&self, byte: u8) -> u16
        ensures { result ≡ plain_weight (byte_entry self.now.entries byte) }
    {
        self.plain[usize::from(byte)]
    }
}

/// The plain weight of each byte.
fn plain_weights(entries: &[(u8, Option<u8>)]) -> [u16; 256]
    requires { length entries.now ≡ 256 }
    ensures { ArePlain result entries.now }
{
    let mut plain = [0; 256];
    for byte in 0..256 {
        plain[byte] = plain_weight(entries[byte]);
    }
    plain
}

/// The weight plus 1 of a byte that has one weight, else 0.
fn plain_weight(entry: (u8, Option<u8>)) -> u16
    ensures { result ≡ plain_weight entry }
{
    match entry {
        (first, None) => u16::from(first) + 1,
        (_, Some(_)) => 0,
    }
}

/// Each weight is a byte, as its type says: the entries are read for the proof.
fn each_fits(entries: &[(u8, Option<u8>)])
    ensures { (byte : ℕ) → IsByteEntry (byte_entry entries.now byte) }
{
    for (first, second) in entries {
        entry_fits(*first, *second);
    }
}

/// So of one entry.
fn entry_fits(first: u8, second: Option<u8>)
    ensures { IsByteEntry (first, second) }
{
    match second {
        Some(weight) => pair_fits(first, weight),
        None => {}
    }
}

/// So of two weights.
fn pair_fits(first: u8, second: u8)
    ensures { IsByteEntry (first, Some second) }
{}
