ghost use Rattle.mc_ast.specs.declared.operators.CmpOp.{CmpOp};
ghost use Rattle.mc_ast.specs.declared.operators.CmpOp.TheVariants.{Ge, Le, NullEq};
ghost use Rattle.mc_catalog.specs.declared.catalog.Catalog.{Catalog};
ghost use Rattle.mc_eval.specs.Fit.{fits};
ghost use Rattle.mc_eval.specs.Node.{Place};
ghost use Rattle.mc_eval.specs.Outcomes.{IsKept, all_given};
ghost use Rattle.mc_eval.specs.Outcomes.Outcome.{gives};
ghost use Rattle.mc_eval.specs.Restated.{comparison, equalities, number_of};
ghost use Rattle.mc_eval.specs.Typed.{GivesType, HasType};
ghost use Rattle.mc_eval.specs.Value.{value};
ghost use Rattle.mc_typing.specs.OfType.{IsOfType, IsRowOf};
ghost use Rattle.mc_typing.specs.Sound.{IsSound};
ghost use Rattle.mc_charset.specs.declared.collation_id.CollId.{CollId};
ghost use Rattle.mc_typing.specs.declared.typed.Node.{Node-F};
ghost use Rattle.mc_typing.specs.declared.typed.Ty.{Ty};
ghost use Rattle.mc_typing.specs.declared.typed.TypedExpr.{TypedExpr};
ghost use Rattle.mc_values.specs.declared.value.Value.{Value};
ghost use Rattle.mc_values.specs.declared.value.Value.TheVariants.{Null};
ghost use Rattle.std.specs.Prelude.{◌≡◌, [], ◌∷◌, All, IsTrue, List, Option, false, length, map};

use mc_charset::chars_law;
use mc_typing::sound_law;

/// Sound expressions can be evaluated with a book of the catalog's collations, and in a row whose
/// values are of their columns' types, with such values of aggregates, their values are of their
/// types.
pub fn evaluation_law()
    ensures fits { (c : Catalog) (columns aggregates : List Ty) (e : TypedExpr)
        → IsSound c columns aggregates e → IsTrue (fits (length c.collations) e) }
    ensures all_fit { (c : Catalog) (columns aggregates : List Ty) (es : List TypedExpr)
        → All (IsSound c columns aggregates) es
        → All (λ e. IsTrue (fits (length c.collations) e)) es }
    ensures ty { (c : Catalog) (columns aggregates : List Ty) (p : Place) (e : TypedExpr)
        → IsSound c columns aggregates e → IsRowOf columns p.row
        → IsRowOf aggregates p.aggregates → GivesType e.ty (value p e) }
    ensures of_type { (type : Ty) (it : Value) → HasType type it → IsKept it → IsOfType type it }
{
    chars_law();
    sound_law();
}

/// What the manual says of nodes in terms of other ones: BETWEEN is its two comparisons joined by
/// AND; IN is the equalities of its first operand with the others joined by OR, where no operand
/// is a fault; and a comparison other than `<=>` is NULL where a side is.
pub fn operations_law()
    ensures between { (p : Place) (coll : Option CollId) (x low high : TypedExpr)
        → value p (number_of (Node-F.Between coll (x ∷ low ∷ high ∷ []) false))
        ≡ value p (number_of (Node-F.And
        (comparison Ge coll x low ∷ comparison Le coll x high ∷ []))) }
    ensures in_list { (p : Place) (coll : Option CollId) (x : TypedExpr) (ys : List TypedExpr)
        (values : List Value) → all_given (map (value p) (x ∷ ys)) ≡ Some values
        → value p (number_of (Node-F.In coll (x ∷ ys) false))
        ≡ value p (number_of (Node-F.Or (equalities coll x ys))) }
    ensures null { (p : Place) (op : CmpOp) (coll : Option CollId) (x y : TypedExpr) (it : Value)
        → (op ≡ NullEq → ⊥) → value p x ≡ gives Null → value p y ≡ gives it
        → (value p (comparison op coll x y) ≡ gives Null)
        × (value p (comparison op coll y x) ≡ gives Null) }
{}
