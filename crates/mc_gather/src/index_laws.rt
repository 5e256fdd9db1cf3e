ghost use Rattle.mc_gather.specs.IndexLaws.{ThroughIsFound, ThroughIsInTable, ThroughIsOne};
ghost use Rattle.mc_gather.specs.PlanLaws.{HeldIsFound, ThroughIsRead};
ghost use Rattle.mc_order.specs.Laws.{greatest_weight};
ghost use Rattle.std.specs.Prelude.{◌≤◌};

use mc_key::key_laws;
use mc_order::{Collation, collation_laws};

/// What the rows through an index are good for: they are the rows of the table that are found in
/// the intervals, and no others.
pub fn through_law()
    ensures one { ThroughIsOne }
    ensures in_table { ThroughIsInTable }
    ensures found { ThroughIsFound }
{
    key_laws();
}

/// What they are good for in a plan: they are the rows that the plan reads, and as many, through an
/// index that is held for the table, with an entry for each text.
pub fn plan_law()
    ensures read { ThroughIsRead }
    ensures held { HeldIsFound }
{
    key_laws();
}

/// Of lists a bound can be made whose space is a collation's.
pub fn space_law<C: Collation>(collation: &C)
    ensures { (C.meaning collation.now).space ≤ greatest_weight }
{
    collation_laws(collation);
}
