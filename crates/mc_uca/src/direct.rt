ghost use Rattle.mc_allkeys.specs.Levels.{level_weights};
ghost use Rattle.mc_allkeys.specs.Table.{contractions_of};
ghost use Rattle.mc_charset.specs.declared.charset.Charset.{Charset as Set};
ghost use Rattle.mc_rules.specs.Elements.{elements_of};
ghost use Rattle.mc_uca.specs.Direct.{direct_at, direct_on, AreDirect, IsDirect};
ghost use Rattle.mc_uca.specs.Kind.{family_of};
ghost use Rattle.mc_uca.specs.Reach.{Reaches};
ghost use Rattle.std.specs.Prelude.{◌≡◌, ◌≤◌, ℕ, ◌∷◌, [], IfOk, IfSome, OnOk};

use crate::UcaKind;
use crate::pending::Pending;
use crate::reach::Reach;
use crate::stream::LevelWeights;
use mc_allkeys::{Keys, cut_law, level_law, longest_law, piece_law};
use mc_base::NoMemory;
use mc_order::WeightStream;
use std::alloc::Global;

/// Where the code points end for which a weight is noted: the ideographs and syllables behind it
/// have more weights than one.
const NOTED: u32 = 0x3400;

/// The weight of a character that has one on a level, and whether it begins a contraction.
#[derive(Clone, Copy)]
pub(crate) struct DirectWeight {
    /// The weight; 0 where the character has another number of weights.
    pub(crate) weight: u16,
    /// Whether it begins a contraction of the table.
    pub(crate) is_head: bool,
}

/// What is known of a code point for which nothing is noted.
const NOT_NOTED: DirectWeight = DirectWeight {
    weight: 0,
    is_head: true,
};

/// The weights of the characters that have one on a level, by their code points.
#[derive(Drop)]
pub(crate) struct DirectWeights {
    first: Vec<DirectWeight>,
    second: Vec<DirectWeight>,
    third: Vec<DirectWeight>,
}

impl DirectWeights {
    /// Those of a table, on the levels that a kind compares.
    pub(crate) fn of(
        alloc: Global,
        kind: UcaKind,
        keys: &Keys,
        reach: &Reach,
    ) -> Result<DirectWeights, NoMemory>
        requires { Reaches (contractions_of keys.now.entries) reach.now }
        ensures { IfOk result (λ direct. (set : Set) → AreDirect set kind keys.now direct) }
    {
        let first = weights_up_to(alloc, kind, keys, reach, 1)?;
        let second = weights_up_to(alloc, kind, keys, reach, 2)?;
        let third = weights_up_to(alloc, kind, keys, reach, 3)?;
        Ok(DirectWeights {
            first,
            second,
            third,
        })
    }

    /// Those of a level.
    pub(crate) fn on(&self, level: u8) -> &[DirectWeight]
        ensures { result.now ≡ direct_on self.now level }
    {
        match level {
            1 => self.first.as_slice(),
            2 => self.second.as_slice(),
            3 => self.third.as_slice(),
            _ => &[],
        }
    }
}

/// What is noted of a code point.
#[inline(always)]
pub(crate) fn direct_at(direct: &[DirectWeight], code: u32) -> DirectWeight
    ensures { result ≡ direct_at direct.now code }
{
    let place = code as usize;
    if place < direct.len() {
        direct[place]
    } else {
        NOT_NOTED
    }
}

/// The weights of a level that the kind compares; nothing is noted of another one.
fn weights_up_to(
    alloc: Global,
    kind: UcaKind,
    keys: &Keys,
    reach: &Reach,
    level: u8,
) -> Result<Vec<DirectWeight>, NoMemory>
    requires { Reaches (contractions_of keys.now.entries) reach.now }
    ensures { IfOk result (λ direct. (set : Set) (code : ℕ) →
        IsDirect set kind keys.now level code (direct_at direct.items code)) }
{
    let mut direct = Vec::new(alloc);
    if level <= kind.levels() {
        note_all(&mut direct, kind, keys, reach, level)?;
    }
    Ok(direct)
}

/// Notes the weights of a level, from the first code point on.
fn note_all(
    direct: &mut Vec<DirectWeight>,
    kind: UcaKind,
    keys: &Keys,
    reach: &Reach,
    level: u8,
) -> Result<(), NoMemory>
    requires empty { direct.old.items ≡ [] }
    requires reach { Reaches (contractions_of keys.now.entries) reach.now }
    ensures { OnOk result ((set : Set) (code : ℕ) →
        IsDirect set kind keys.now level code (direct_at direct.new.items code)) }
{
    for code in 0..NOTED {
        direct.push(direct_weight(kind, keys, reach, level, code))?;
    }
    Ok(())
}

/// What is noted of a code point on a level.
fn direct_weight(kind: UcaKind, keys: &Keys, reach: &Reach, level: u8, code: u32) -> DirectWeight
    requires is_code { code ≤ 0x10FFFF }
    requires reach { Reaches (contractions_of keys.now.entries) reach.now }
    ensures { (set : Set) → IsDirect set kind keys.now level code result }
{
    cut_law();
    piece_law();
    longest_law();
    level_law();
    let is_head = reach.at(code) >= 2;
    match only_weight(kind, keys, level, code) {
        Some(weight) => DirectWeight { weight, is_head },
        None => DirectWeight { weight: 0, is_head },
    }
}

/// The weight of a character on a level, where it has one and no more.
fn only_weight(kind: UcaKind, keys: &Keys, level: u8, code: u32) -> Option<u16>
    requires { code ≤ 0x10FFFF }
    ensures { IfSome result (λ weight. level_weights level
        (elements_of keys.now (family_of kind) (code ∷ [])) ≡ weight ∷ []) }
{
    let mut weights = LevelWeights {
        elements: Pending::of_char(keys, kind.family(), code),
        level,
    };
    let first = weights.next_weight()?;
    match weights.next_weight() {
        Some(_) => None,
        None => two_bytes(first),
    }
}

/// A weight as a number of two bytes.
fn two_bytes(weight: u32) -> Option<u16>
    ensures { IfSome result (λ number. number ≡ weight) }
{
    match u16::try_from(weight) {
        Ok(number) => Some(number),
        Err(_) => None,
    }
}
