ghost use Rattle.mc_allkeys.specs.Table.{ElementTable};
ghost use Rattle.mc_charset.specs.declared.charset.Charset.{Charset as Set};
ghost use Rattle.mc_order.specs.Meaning.{AreCharsOf};
ghost use Rattle.mc_rules.specs.Elements.{table_list};
ghost use Rattle.mc_uca.specs.Kind.{family_of};
ghost use Rattle.mc_uca.specs.Weighing.{uca_list};
ghost use Rattle.mc_uca.specs.declared.kind.UcaKind.{UcaKind as Kind};
ghost use Rattle.std.specs.Prelude.{◌≡◌, ℕ, List};

use mc_allkeys::{cut_law, piece_law};

/// The lists of a text of the set, by the set's contractions, are those by all contractions of the
/// table: no other contraction begins such a text.
pub fn uca_law()
    ensures { (set : Set) (kind : Kind) (table : ElementTable) (level : ℕ) (codes : List ℕ) →
        AreCharsOf set codes →
        uca_list set kind table level codes ≡ table_list table (family_of kind) level codes }
{
    cut_law();
    piece_law();
}
