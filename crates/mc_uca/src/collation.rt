ghost use Rattle.mc_allkeys.specs.Sound.{IsSound};
ghost use Rattle.mc_charset.specs.Names.{is_unicode_set};
ghost use Rattle.mc_order.specs.Floor.{weighs};
ghost use Rattle.mc_order.specs.Meaning.{flat_list};
ghost use Rattle.mc_order.specs.Tails.{tails_of};
ghost use Rattle.mc_uca.specs.Fault.{HasUcaFault};
ghost use Rattle.mc_uca.specs.Heads.{heads_of};
ghost use Rattle.mc_uca.specs.Kind.{levels_of, pad_of};
ghost use Rattle.mc_uca.specs.UcaMeaning.{space_by, space_fits, uca_meaning};
ghost use Rattle.mc_uca.specs.Weighing.{set_contractions, uca_list};
ghost use Rattle.std.specs.Prelude.{◌≡◌, ◌≤◌, ◌<◌, ◌^◌, ◌∷◌, [], length, IsTrue, MatchResult};

use crate::findings::Findings;
use crate::weigher::Weigher;
use crate::{UcaFault, UcaKind};
use mc_allkeys::{Keys, keys_law};
use mc_base::{NoMemory, Weights};
use mc_charset::{Charset, chars_law};
use mc_order::{Collation, Pad};
use std::alloc::Global;
use std::cmp::Ordering;

/// A Unicode collation (UTS #10): the texts of a Unicode set by the elements of a table, with its
/// contractions, on one to three weight levels. What it means is `uca_meaning` of its set, its kind
/// and its table.
#[derive(Drop)]
pub struct UcaCollation {
    weigher: Weigher,
    found: Findings,
    ghost sound: { IsSound weigher.keys },
    ghost fits: { IsTrue (space_fits (pad_of weigher.kind)
        (uca_list weigher.charset weigher.kind weigher.keys 1 (0x20 ∷ []))) },
    ghost space_is: { found.space ≡ space_by (pad_of weigher.kind)
        (uca_list weigher.charset weigher.kind weigher.keys 1 (0x20 ∷ [])) },
    ghost weighs_is: { found.each_weighs ≡ weighs weigher.charset
        (uca_list weigher.charset weigher.kind weigher.keys 1)
        (set_contractions weigher.charset weigher.keys.entries) },
    ghost tails_are: { found.tails.items ≡ tails_of
        (uca_list weigher.charset weigher.kind weigher.keys 1)
        (set_contractions weigher.charset weigher.keys.entries) },
    ghost few_tails: { length found.tails.items < 2 ^ 32 },
    ghost heads_are: { found.heads.items ≡ heads_of
        (flat_list (uca_meaning weigher.charset weigher.kind weigher.keys))
        (set_contractions weigher.charset weigher.keys.entries) },
}

impl UcaCollation {
    /// The collation of this kind, set and table. `SpaceWeight` comes exactly where texts are
    /// padded and U+0020 hasn't one weight on the first level.
    pub fn new(
        alloc: Global,
        kind: UcaKind,
        charset: Charset,
        keys: Keys,
    ) -> Result<UcaCollation, UcaFault>
        requires on_unicode { IsTrue (is_unicode_set charset) }
        requires some_level { 1 ≤ levels_of kind }
        requires few_levels { levels_of kind ≤ 3 }
        ensures { let fits = space_fits (pad_of kind) (uca_list charset kind keys 1 (0x20 ∷ [])) in
            MatchResult result
            (λ uca. (⟦<UcaCollation as Collation>⟧.meaning uca ≡ uca_meaning charset kind keys)
            × IsTrue fits)
            (HasUcaFault fits) }
    {
        let weigher = Weigher::new(alloc, charset, kind, keys)?;
        keys_law(&weigher.keys);
        let found = weigher.findings(alloc)?;
        Ok(UcaCollation { weigher, found })
    }
}

impl Collation for UcaCollation {
    ghost use Rattle.mc_uca.specs.Collated.{lawful_of, meaning_of};

    ghost meaning = { meaning_of };

    fn charset(&self) -> Charset {
        self.weigher.charset
    }

    fn pad(&self) -> Pad {
        self.weigher.kind.pad()
    }

    fn space(&self) -> u32 {
        self.found.space
    }

    fn levels(&self) -> u8 {
        self.weigher.kind.levels()
    }

    fn weight_width(&self) -> u8 {
        2
    }

    fn added(&self) -> u32 {
        0
    }

    fn compare(&self, a: &[u8], b: &[u8]) -> Ordering {
        self.weigher.compare(a, b, self.found.space)
    }

    fn same_char(&self, c: u32, d: u32) -> bool {
        chars_law();
        c == d || self.weigher.same_char(c, d)
    }

    fn safe(&self, c: u32) -> bool {
        chars_law();
        self.weigher.is_safe(self.found.heads.as_slice(), c)
    }

    fn floor(&self, k: u32) -> u32 {
        if self.found.each_weighs { k } else { 0 }
    }

    fn tail_count(&self) -> u32 {
        self.found.tails.len() as u32
    }

    fn tail(&self, i: u32) -> &[u32] {
        let place = i as usize;
        if place < self.found.tails.len() {
            self.found.tails[place].as_slice()
        } else {
            &[]
        }
    }

    fn put_list(&self, text: &[u8], first: Option<u32>, out: &mut Weights) -> Result<(), NoMemory> {
        self.weigher.put_list(text, first, out)
    }

    ghost lawful = { lawful_of };
}
