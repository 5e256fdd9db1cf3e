ghost use Rattle.mc_order.specs.Floor.{weighs};
ghost use Rattle.mc_order.specs.Meaning.{flat_list};
ghost use Rattle.mc_order.specs.Tails.{tails_of};
ghost use Rattle.mc_uca.specs.Fault.{HasUcaFault};
ghost use Rattle.mc_uca.specs.Heads.{heads_of};
ghost use Rattle.mc_uca.specs.Kind.{pad_of};
ghost use Rattle.mc_uca.specs.UcaMeaning.{space_by, space_fits, uca_meaning};
ghost use Rattle.mc_uca.specs.Weighing.{set_contractions, uca_list};
ghost use Rattle.std.specs.Prelude.{◌≡◌, ◌<◌, ◌^◌, ◌∷◌, [], length, IfOk, IsTrue, MatchResult};

use crate::fault::UcaFault;
use crate::weigher::Weigher;
use mc_base::{NoMemory, Weights};
use std::alloc::Global;

/// What is found out about a collation once, when it is made.
#[derive(Drop)]
pub(crate) struct Findings {
    /// The space's weight where texts are padded, else 0.
    pub(crate) space: u32,
    /// Whether there are no contractions, and each character has a weight on the first level.
    pub(crate) each_weighs: bool,
    /// The tails of the contractions, in lexicographic order.
    pub(crate) tails: Vec<Weights>,
    /// The flat lists of the characters that begin contractions, in lexicographic order.
    pub(crate) heads: Vec<Weights>,
}

impl Weigher {
    /// What is found out about its collation; a fault where the space's weight doesn't fit.
    pub(crate) fn findings(&self, alloc: Global) -> Result<Findings, UcaFault>
        ensures fits { let fits = space_fits (pad_of self.now.kind)
            (uca_list self.now.charset self.now.kind self.now.keys 1 (0x20 ∷ [])) in
            MatchResult result (λ _. IsTrue fits) (HasUcaFault fits) }
        ensures space { IfOk result (λ found. found.space ≡ space_by (pad_of self.now.kind)
            (uca_list self.now.charset self.now.kind self.now.keys 1 (0x20 ∷ []))) }
        ensures weighs { IfOk result (λ found. found.each_weighs ≡ weighs self.now.charset
            (uca_list self.now.charset self.now.kind self.now.keys 1)
            (set_contractions self.now.charset self.now.keys.entries)) }
        ensures tails { IfOk result (λ found. found.tails.items
            ≡ tails_of (uca_list self.now.charset self.now.kind self.now.keys 1)
            (set_contractions self.now.charset self.now.keys.entries)) }
        ensures few_tails { IfOk result (λ found. length found.tails.items < 2 ^ 32) }
        ensures heads { let m = uca_meaning self.now.charset self.now.kind self.now.keys in
            IfOk result (λ found. found.heads.items ≡ heads_of (flat_list m)
            (set_contractions self.now.charset self.now.keys.entries)) }
    {
        let space = self.space()?;
        let tails = self.few_tails(alloc)?;
        let heads = self.heads(alloc)?;
        Ok(Findings {
            space,
            each_weighs: self.weighs(),
            tails,
            heads,
        })
    }

    /// The tails, where there are no more than can be counted; else as without memory.
    fn few_tails(&self, alloc: Global) -> Result<Vec<Weights>, NoMemory>
        ensures tails { IfOk result (λ tails. tails.items
            ≡ tails_of (uca_list self.now.charset self.now.kind self.now.keys 1)
            (set_contractions self.now.charset self.now.keys.entries)) }
        ensures few { IfOk result (λ tails. length tails.items < 2 ^ 32) }
    {
        let tails = self.tails(alloc)?;
        if tails.len() > u32::MAX as usize {
            return Err(NoMemory);
        }
        Ok(tails)
    }
}
