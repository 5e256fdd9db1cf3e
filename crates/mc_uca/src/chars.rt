ghost use Rattle.mc_order.specs.Meaning.{flat_list};
ghost use Rattle.mc_uca.specs.UcaMeaning.{uca_meaning};
ghost use Rattle.std.specs.Prelude.{◌≡◌, ◌↔◌, ◌≤◌, ◌∷◌, [], IsTrue};

use crate::weigher::Weigher;
use mc_order::{Pad, compare_streams, order_laws};
use std::cmp::Ordering;

impl Weigher {
    /// Whether two characters have the same weights on each level.
    pub(crate) fn same_char(&self, c: u32, d: u32) -> bool
        requires first { c ≤ 0x10FFFF }
        requires second { d ≤ 0x10FFFF }
        ensures { let m = uca_meaning self.now.charset self.now.kind self.now.keys in
            IsTrue result ↔ (flat_list m (c ∷ []) ≡ flat_list m (d ∷ [])) }
    {
        order_laws();
        let mut left = self.char_weights(c);
        let mut right = self.char_weights(d);
        compare_streams(&mut left, &mut right, Pad::NoPad, 0) == Ordering::Equal
    }
}
