ghost use Rattle.mc_gather.specs.PlanLaws.{held_at};
ghost use Rattle.std.specs.Prelude.{◌≡◌, option_map};

use mc_base::List;
use mc_index::Index;

/// The index that is held for the table at a place, by its number among the table's indexes, both
/// from 0.
pub fn held(indexes: &List<List<Index>>, place: u32, index: u32) -> Option<&Index>
    ensures { option_map (λ it. it.now) result ≡ held_at indexes.now place index }
{
    let of_table = indexes.as_slice().get(place as usize)?;
    of_table.as_slice().get(index as usize)
}
