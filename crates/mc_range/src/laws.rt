ghost use Rattle.mc_range.specs.Bounds.{EndsAreBounds};
ghost use Rattle.mc_range.specs.Finds.{FindsAll, SafeIsDecided};

use mc_charset::chars_law;
use mc_key::key_laws;
use mc_like::like_laws;
use mc_order::{Collation, characters_laws, collation_laws, order_laws};

/// What intervals are good for: a text that meets a condition has what an index keeps of it in one
/// of the condition's intervals, where they are named. Of the ends of these intervals bounds can be
/// made. So it is under every collation, by its laws alone.
pub fn range_laws<C: Collation>(collation: &C)
    ensures finds { FindsAll (C.meaning collation.now) }
    ensures bounds { EndsAreBounds (C.meaning collation.now) }
    ensures safe { SafeIsDecided (C.meaning collation.now) }
{
    chars_law();
    characters_laws();
    collation_laws(collation);
    order_laws();
    key_laws();
    like_laws();
}
