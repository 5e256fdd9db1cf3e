ghost use Rattle.mc_group.specs.Laws.{GroupsAreClasses, OneListIsSorted, RowsAreOrdered};
ghost use Rattle.mc_group.specs.Laws.{SameIsEquivalence, SameIsTold};
ghost use Rattle.mc_group.specs.Order.{place_order, row_order};
ghost use Rattle.mc_group.specs.declared.kind.KeyKind.{KeyKind};
ghost use Rattle.mc_order.specs.Meaning.{Meaning};
ghost use Rattle.mc_values.specs.declared.value.Value.{Value};
ghost use Rattle.std.specs.Cmp.{IsTotalOrder};
ghost use Rattle.std.specs.Prelude.{◌≡◌, ℕ, Bool, List};
ghost use Rattle.std.specs.declared.cmp.Ordering.TheVariants.{Equal};

use mc_order::order_laws;

/// What rows in order and groups are: the order of key rows is total, and one list of places is in
/// order; values are the same exactly where both are NULL, or one number, or texts of equal
/// weights, which parts rows into classes; and rows have one group's number exactly where they are
/// the same.
pub fn group_laws()
    ensures ordered { RowsAreOrdered }
    ensures one_list { OneListIsSorted }
    ensures told { SameIsTold }
    ensures equivalence { SameIsEquivalence }
    ensures classes { GroupsAreClasses }
{
    order_laws();
}

/// The order of rows' places is total, and only a place itself ties with it, so places are sorted
/// in one way.
#[tactic(auto, using(crate::proofs::Totals::place_total, crate::proofs::Places::place_ties))]
pub fn place_law()
    ensures total { (meaning : ℕ → Meaning) (kinds : List KeyKind) (desc : List Bool)
        (rows : List (List Value))
        → IsTotalOrder (place_order (row_order meaning kinds desc) rows) }
    ensures ties { (meaning : ℕ → Meaning) (kinds : List KeyKind) (desc : List Bool)
        (rows : List (List Value)) (place other : ℕ)
        → place_order (row_order meaning kinds desc) rows place other ≡ Equal → place ≡ other }
{
    order_laws();
}
