ghost use Rattle.mc_charset.specs.Chars.{code_points};
ghost use Rattle.mc_order.specs.Floor.{each_below, weighs, weighs_if_char};
ghost use Rattle.mc_order.specs.Tails.{has_members};
ghost use Rattle.mc_uca.specs.Weighing.{set_contractions, uca_list};
ghost use Rattle.std.specs.Prelude.{◌≡◌, ◌≤◌};

use crate::tails::is_of_set;
use crate::weigher::Weigher;
use mc_charset::has_char;

/// The end of Unicode's code points.
const CODE_POINTS: u32 = 0x110000;

impl Weigher {
    /// Whether the set has no contractions, and each of its characters a weight on the first level.
    #[tactic(auto, using(crate::proofs::Filters::weighing))]
    pub(crate) fn weighs(&self) -> bool
        ensures { result ≡ weighs self.now.charset
            (uca_list self.now.charset self.now.kind self.now.keys 1)
            (set_contractions self.now.charset self.now.keys.entries) }
    {
        if self.has_contractions() {
            return false;
        }
        self.each_weighs()
    }

    /// Whether a contraction is of the set.
    fn has_contractions(&self) -> bool
        ensures { result ≡ has_members (set_contractions self.now.charset self.now.keys.entries) }
    {
        for place in 0..self.keys.contraction_count() {
            if is_of_set(self.charset, self.keys.contraction(place)) {
                return true;
            }
        }
        false
    }

    /// Whether each character of the set has a weight on the first level.
    #[tactic(auto, using(crate::proofs::Filters::searches))]
    fn each_weighs(&self) -> bool
        ensures { result ≡ each_below code_points (weighs_if_char self.now.charset
            (uca_list self.now.charset self.now.kind self.now.keys 1)) }
    {
        for code in 0..CODE_POINTS {
            if !self.weighs_if_char(code) {
                return false;
            }
        }
        true
    }

    /// Whether a code point is no character of the set, or has a weight on the first level.
    fn weighs_if_char(&self, code: u32) -> bool
        requires { code ≤ 0x10FFFF }
        ensures { result ≡ weighs_if_char self.now.charset
            (uca_list self.now.charset self.now.kind self.now.keys 1) code }
    {
        !has_char(self.charset, code) || self.has_weight(code)
    }
}
