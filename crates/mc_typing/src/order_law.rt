ghost use Rattle.mc_ast.specs.declared.expr.Expr.{Expr};
ghost use Rattle.mc_ast.specs.declared.expr.Form.TheViews.{out-Form};
ghost use Rattle.mc_base.specs.declared.refusal.Refusal.{Refusal};
ghost use Rattle.mc_catalog.specs.declared.catalog.Catalog.{Catalog};
ghost use Rattle.mc_typing.specs.Exprs.{Typing, operands, typing, typings};
ghost use Rattle.mc_typing.specs.FirstRefused.{IsFirstRefused};
ghost use Rattle.mc_typing.specs.Forms.{parts};
ghost use Rattle.mc_typing.specs.Places.{place_at, place_below};
ghost use Rattle.mc_typing.specs.declared.callee.Callee.{Callee};
ghost use Rattle.mc_typing.specs.declared.place.Place.{Place};
ghost use Rattle.mc_typing.specs.declared.scope.Scope.{Scope};
ghost use Rattle.std.specs.Prelude.{◌≡◌, ◌↔◌, ℕ, Err, List, Option};

/// The law of the order of refusals: operands are refused exactly by the first of them that is,
/// from left to right, and an expression with a refused operand is refused by it.
pub fn order_of_refusals()
    ensures operands { (c : Catalog) (s : Scope) (callee : Option Callee) (ts : List Typing)
        (refusal : Refusal)
        → (operands c s callee ts ≡ Err refusal) ↔ IsFirstRefused ts refusal }
    ensures expressions { (c : Catalog) (s : Scope) (groups : List Expr) (place : Place)
        (number : ℕ) (expr : Expr) (refusal : Refusal)
        → IsFirstRefused (typings c s groups
        (place_below (place_at groups place expr) (out-Form expr.form)) number
        (parts (out-Form expr.form))) refusal
        → typing c s groups place number expr ≡ Err refusal }
{}
