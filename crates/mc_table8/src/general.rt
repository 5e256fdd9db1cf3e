ghost use Rattle.mc_table8.specs.General.{code_weight};
ghost use Rattle.std.specs.Prelude.{◌≡◌, ℕ, ◌≤◌, ◌<◌, length, slice_index_or};

use mc_base::List;
use std::marker::Model;

/// The weights of the code points up to FFFF, each at most FFFF; a code point above has that of
/// U+FFFD (MySQL 8.0 manual, 10.10.1). Contracts see the list of them.
#[derive(Debug, Drop)]
pub struct General {
    weights: List<u16>,
    ghost all_codes: { length weights ≡ 0x10000 },
    ghost fits: { (code : ℕ) → slice_index_or weights code 0 ≤ 0xFFFF },
}

impl Model for General {
    ghost use Rattle.mc_table8.specs.General.{CodeTable};

    ghost Value = { CodeTable };

    ghost view = { λ table. record {
      weights = table.weights;
      all_codes = table.all_codes;
      fits = table.fits;
    } };
}

impl General {
    /// The table of these weights, one for each code point up to FFFF in order.
    pub(crate) fn new(weights: List<u16>) -> General
        requires { length weights ≡ 0x10000 }
        ensures { result.weights ≡ weights }
    {
        each_fits(weights.as_slice());
        General { weights }
    }

    /// The weight of a code point.
    #[inline(always)]
    pub fn weight(&self, code: u32) -> u32
        ensures weight { result ≡ code_weight self.now.weights code }
        ensures fits { result ≤ 0xFFFF }
    {
        let place = if code < 0x10000 { code } else { 0xFFFD };
        u32::from(self.weights.as_slice()[place as usize])
    }
}

/// Each weight is at most FFFF, as its type says.
fn each_fits(weights: &[u16])
    ensures { (code : ℕ) → slice_index_or weights.now code 0 ≤ 0xFFFF }
{}
