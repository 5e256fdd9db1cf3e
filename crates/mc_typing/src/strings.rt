ghost use Rattle.mc_ast.specs.Texts.{HasUtf8};
ghost use Rattle.mc_ast.specs.declared.expr.Form.TheViews.{out-Form};
ghost use Rattle.mc_typing.specs.Forms.{parts};
ghost use Rattle.std.specs.List.{AllByRecursion};

use mc_ast::Expr;

/// The strings of an expression's parts are UTF-8, as its own are.
pub(crate) fn parts_law(e: &Expr)
    requires { HasUtf8 e.now }
    ensures { AllByRecursion HasUtf8 (parts (out-Form e.now.form)) }
{}
