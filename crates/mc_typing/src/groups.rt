ghost use Rattle.mc_ast.specs.Texts.{HasUtf8};
ghost use Rattle.mc_typing.specs.Scope.{IsScope};
ghost use Rattle.mc_typing.specs.Statements.{group_keys, group_typing};
ghost use Rattle.mc_typing.specs.Whole.{with_typings};
ghost use Rattle.mc_typing.specs.Wanted.{IsLeft, IsWanted};
ghost use Rattle.std.specs.List.{AllByRecursion};
ghost use Rattle.std.specs.Prelude.{map};

use crate::fault::{TypeFault, refused};
use crate::messages::wrong_argument;
use crate::orders::is_int;
use crate::scope::Scope;
use crate::typed::TypedExpr;
use crate::walk::type_in_row;
use mc_ast::Expr;
use mc_base::List;
use mc_catalog::Catalog;
use std::alloc::Global;

/// An expression of GROUP BY: no number literal.
fn type_group(alloc: Global, c: &Catalog, s: Scope, e: &Expr) -> Result<TypedExpr, TypeFault>
    requires scope { IsScope c.now s }
    requires script { HasUtf8 e.now }
    ensures { IsWanted result (group_typing c.now s e.now) }
{
    if is_int(&e.form) {
        Err(refused(wrong_argument(alloc, b"group by")))
    } else {
        type_in_row(e, alloc, c, s)
    }
}

/// Appends typed expressions of GROUP BY, up to the first that is refused.
fn put_groups(
    alloc: Global,
    c: &Catalog,
    s: Scope,
    groups: &[Expr],
    xs: &mut List<TypedExpr>,
) -> Result<(), TypeFault>
    requires scope { IsScope c.now s }
    requires script { AllByRecursion HasUtf8 groups.now }
    ensures { IsLeft result xs.new
        (with_typings xs.old (map (group_typing c.now s) groups.now)) }
{
    for group in groups {
        let x = type_group(alloc, c, s, group)?;
        xs.push(x)?;
    }
    Ok(())
}

/// The expressions of GROUP BY.
pub(crate) fn group_keys(
    alloc: Global,
    c: &Catalog,
    s: Scope,
    groups: &[Expr],
) -> Result<List<TypedExpr>, TypeFault>
    requires scope { IsScope c.now s }
    requires script { AllByRecursion HasUtf8 groups.now }
    ensures { IsWanted result (group_keys c.now s groups.now) }
{
    let mut xs = List::new(alloc);
    match put_groups(alloc, c, s, groups, &mut xs) {
        Ok(_) => Ok(xs),
        Err(fault) => Err(fault),
    }
}
