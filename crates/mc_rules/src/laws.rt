ghost use Rattle.std.specs.FinMap as map;
ghost use Rattle.std.specs.Prelude.{◌≡◌, ◌≤◌, ℕ, List, [], ◌∷◌, None, false, length};
ghost use Rattle.std.specs.List.{All};
ghost use Rattle.mc_allkeys.specs.Levels.{level_weights};
ghost use Rattle.mc_allkeys.specs.Sound.{HasWeights};
ghost use Rattle.mc_rules.specs.Elements.{elements_of, table_list};
ghost use Rattle.mc_rules.specs.Outside.{takes_jamo};

use crate::family::UcaFamily;
use mc_allkeys::{Keys, keys_law, level_law};

/// The laws of the weights of a table: those of each piece's elements have two bytes, and those of
/// a list are from 1 to FFFF; no codes have no weights. A code point without an entry has a weight
/// on the first level, unless it takes the elements of its jamo.
pub fn elements_law(keys: &Keys, kind: UcaFamily)
    ensures elements { (piece : List ℕ) → All (λ code. code ≤ 0x10FFFF) piece →
        All HasWeights (elements_of keys.now kind piece) }
    ensures weights { (level : ℕ) (codes : List ℕ) → All (λ code. code ≤ 0x10FFFF) codes →
        All (λ weight. (1 ≤ weight) × (weight ≤ 0xFFFF)) (table_list keys.now kind level codes) }
    ensures empty { (level : ℕ) → table_list keys.now kind level [] ≡ [] }
    ensures unlisted { (code : ℕ) → map.get keys.now.entries (code ∷ []) ≡ None →
        takes_jamo keys.now kind code ≡ false →
        1 ≤ length (level_weights 1 (elements_of keys.now kind (code ∷ []))) }
{
    keys_law(keys);
    level_law();
}
