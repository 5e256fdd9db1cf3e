ghost use Rattle.mc_order.specs.Tails.{has_members};
ghost use Rattle.mc_uca.specs.Kind.{pad_of};
ghost use Rattle.mc_uca.specs.UcaMeaning.{space_by, space_fits};
ghost use Rattle.mc_uca.specs.Weighing.{uca_list};
ghost use Rattle.std.specs.Prelude.{◌≡◌, ◌≤◌, ◌==◌, ◌∷◌, [], false, length, IsTrue, MatchOption};
ghost use Rattle.std.specs.Prelude.{MatchResult};

use crate::fault::UcaFault;
use crate::pending::Pending;
use crate::stream::LevelWeights;
use crate::weigher::Weigher;
use mc_allkeys::{cut_law, piece_law};
use mc_order::{Pad, WeightStream};

impl Weigher {
    /// The space's weight where texts are padded, else 0; a fault where it hasn't one.
    pub(crate) fn space(&self) -> Result<u32, UcaFault>
        ensures { let list = uca_list self.now.charset self.now.kind self.now.keys 1 (0x20 ∷ []) in
            MatchResult result
            (λ space. (IsTrue (space_fits (pad_of self.now.kind) list))
            × (space ≡ space_by (pad_of self.now.kind) list))
            (λ fault. (fault ≡ UcaFault.SpaceWeight)
            × (space_fits (pad_of self.now.kind) list ≡ false)) }
    {
        match self.kind.pad() {
            Pad::NoPad => Ok(0),
            Pad::PadSpace => match self.only_weight(0x20) {
                Some(weight) => Ok(weight),
                None => Err(UcaFault::SpaceWeight),
            },
        }
    }

    /// The weight of a character on the first level, where it has one and no more.
    fn only_weight(&self, code: u32) -> Option<u32>
        requires { code ≤ 0x10FFFF }
        ensures { let list = uca_list self.now.charset self.now.kind self.now.keys 1 (code ∷ []) in
            MatchOption result ((length list == 1) ≡ false) (λ weight. list ≡ weight ∷ []) }
    {
        let mut weights = self.first_weights(code);
        let first = weights.next_weight()?;
        match weights.next_weight() {
            Some(_) => None,
            None => Some(first),
        }
    }

    /// Whether a character has a weight on the first level.
    pub(crate) fn has_weight(&self, code: u32) -> bool
        requires { code ≤ 0x10FFFF }
        ensures { result ≡ has_members
            (uca_list self.now.charset self.now.kind self.now.keys 1 (code ∷ [])) }
    {
        self.first_weights(code).next_weight().is_some()
    }

    /// The weights of a character on the first level.
    fn first_weights<'a>(&'a self, code: u32) -> LevelWeights<Pending<'a>>
        requires { code ≤ 0x10FFFF }
        ensures { ⟦<LevelWeights<Pending<'a>> as WeightStream>⟧.left result
            ≡ uca_list self.now.charset self.now.kind self.now.keys 1 (code ∷ []) }
    {
        cut_law();
        piece_law();
        LevelWeights {
            elements: self.char_elements(code),
            level: 1,
        }
    }
}
