ghost use Rattle.mc_charset.specs.declared.collation_id.CollId.{CollId};
ghost use Rattle.mc_eval.specs.Node.{Place};
ghost use Rattle.mc_plan.specs.Rejects.{RejectsOthers};
ghost use Rattle.mc_range.specs.declared.condition.Cond.{Cond};
ghost use Rattle.mc_typing.specs.declared.typed.TypedExpr.{TypedExpr};
ghost use Rattle.std.specs.Prelude.{ℕ};

use mc_charset::chars_law;
use mc_convert::conversion_law;
use mc_like::like_laws;
use mc_order::order_laws;

/// What conditions are good for: an expression that is a condition on a column is false or NULL,
/// and no fault, in each row whose value in the column doesn't meet the condition.
pub fn condition_law()
    ensures { (p : Place) (column : ℕ) (coll : CollId) (e : TypedExpr) (cond : Cond)
        → RejectsOthers p column coll e cond }
{
    chars_law();
    conversion_law();
    order_laws();
    like_laws();
}
