ghost use Rattle.std.specs.Prelude.{◌≡◌, ℕ};
ghost use Rattle.mc_ast.specs.declared.expr.Form.{Form};
ghost use Rattle.mc_ast.specs.Written.{at};
ghost use Rattle.mc_ast.specs.Alike.{AreAlike};

/// The law: expressions of one form are alike wherever they stand.
pub fn likeness_ignores_spans()
    ensures { (start end start' end' : ℕ) (form : Form)
        → AreAlike (at start end form) (at start' end' form) }
{}
