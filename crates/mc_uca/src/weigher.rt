ghost use Rattle.mc_allkeys.specs.Table.{contractions_of};
ghost use Rattle.mc_charset.specs.declared.charset.Charset.{Charset as Set};
ghost use Rattle.mc_rules.specs.Elements.{elements_of};
ghost use Rattle.mc_uca.specs.Direct.{AreDirect};
ghost use Rattle.mc_uca.specs.Inner.{MarksInner};
ghost use Rattle.mc_uca.specs.Kind.{family_of, levels_of};
ghost use Rattle.mc_uca.specs.Reach.{Reaches};
ghost use Rattle.mc_uca.specs.Streams.{pending_left};
ghost use Rattle.std.specs.Prelude.{◌≡◌, ◌≤◌, ◌∷◌, [], IfOk};

use crate::UcaKind;
use crate::direct::DirectWeights;
use crate::inner::Inner;
use crate::pending::Pending;
use crate::reach::Reach;
use mc_allkeys::Keys;
use mc_base::NoMemory;
use mc_charset::Charset;
use std::alloc::Global;

/// What gives the texts of a set their elements: a table, with what is made of it once.
#[derive(Drop)]
pub(crate) struct Weigher {
    pub(crate) charset: Charset,
    pub(crate) kind: UcaKind,
    pub(crate) keys: Keys,
    pub(crate) reach: Reach,
    pub(crate) inner: Inner,
    pub(crate) direct: DirectWeights,
    ghost some_level: { 1 ≤ levels_of kind },
    ghost few_levels: { levels_of kind ≤ 3 },
    ghost reaches: { Reaches (contractions_of keys.entries) reach },
    ghost inners: { MarksInner (contractions_of keys.entries) inner },
    ghost directs: { AreDirect charset kind keys direct },
}

impl Weigher {
    /// That of this table.
    pub(crate) fn new(
        alloc: Global,
        charset: Charset,
        kind: UcaKind,
        keys: Keys,
    ) -> Result<Weigher, NoMemory>
        requires some_level { 1 ≤ levels_of kind }
        requires few_levels { levels_of kind ≤ 3 }
        ensures charset { IfOk result (λ weigher. weigher.charset ≡ charset) }
        ensures kind { IfOk result (λ weigher. weigher.kind ≡ kind) }
        ensures keys { IfOk result (λ weigher. weigher.keys ≡ keys) }
    {
        let (reach, inner, direct) = marks_of(alloc, kind, &keys)?;
        Ok(Weigher {
            charset,
            kind,
            keys,
            reach,
            inner,
            direct,
        })
    }

    /// The elements of a character by itself.
    pub(crate) fn char_elements(&self, code: u32) -> Pending<'_>
        requires { code ≤ 0x10FFFF }
        ensures { pending_left result
            ≡ elements_of self.now.keys (family_of self.now.kind) (code ∷ []) }
    {
        Pending::of_char(&self.keys, self.kind.family(), code)
    }
}

/// What is noted of the code points of a table.
fn marks_of(
    alloc: Global,
    kind: UcaKind,
    keys: &Keys,
) -> Result<(Reach, Inner, DirectWeights), NoMemory>
    ensures reaches { IfOk result
        (λ marks. Reaches (contractions_of keys.now.entries) marks.0) }
    ensures inners { IfOk result
        (λ marks. MarksInner (contractions_of keys.now.entries) marks.1) }
    ensures directs { IfOk result
        (λ marks. (set : Set) → AreDirect set kind keys.now marks.2) }
{
    let reach = Reach::of(alloc, keys)?;
    let inner = Inner::of(alloc, keys)?;
    let direct = DirectWeights::of(alloc, kind, keys, &reach)?;
    Ok((reach, inner, direct))
}
