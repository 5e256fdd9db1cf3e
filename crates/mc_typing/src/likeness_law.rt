ghost use Rattle.mc_ast.specs.Alike.{AreAlike};
ghost use Rattle.mc_ast.specs.declared.expr.Expr.{Expr};
ghost use Rattle.mc_typing.specs.Likeness.{alike};
ghost use Rattle.std.specs.Prelude.{◌≡◌, ◌↔◌, true};

/// The law: two trees are alike exactly where they differ in spans alone.
pub fn likeness_up_to_spans()
    ensures { (a b : Expr) → (alike a b ≡ true) ↔ AreAlike a b }
{}
