ghost use Rattle.mc_ast.specs.Texts.{HasUtf8};
ghost use Rattle.mc_base.specs.declared.refusal.Refusal.{Refusal};
ghost use Rattle.mc_typing.specs.Exprs.{Typing, in_row};
ghost use Rattle.mc_typing.specs.Gathered.{alone, gathered, gathered_all, judged};
ghost use Rattle.mc_typing.specs.Scope.{IsScope};
ghost use Rattle.mc_typing.specs.Statements.{where_of};
ghost use Rattle.mc_typing.specs.Wanted.{IsGathered, IsWanted};
ghost use Rattle.std.specs.List.{AllByRecursion};
ghost use Rattle.mc_typing.specs.declared.typed.TypedExpr.{TypedExpr};
ghost use Rattle.std.specs.Prelude.{Bool, IfSome, List, Result, Some, codes, false, map};

use crate::fault::{TypeFault, refused};
use crate::messages::wrong_argument;
use crate::operands::is_text;
use crate::scope::Scope;
use crate::strings::parts_law;
use crate::typed::TypedExpr;
use crate::walk::type_in_row;
use mc_ast::{Expr, Form};
use mc_base::List;
use mc_catalog::Catalog;
use std::alloc::Global;

/// Appends an expression that is typed, and says whether it is a text; or passes its refusal on.
fn put_alone(
    typed: Result<TypedExpr, TypeFault>,
    xs: &mut List<TypedExpr>,
) -> Result<bool, TypeFault>
    ensures { (t : Typing) → IsWanted typed t → IsGathered result xs.new (alone xs.old t) }
{
    let x = typed?;
    let text = is_text(x.ty);
    xs.push(x)?;
    Ok(text)
}

/// Refuses an operation on numbers where an expression among its operands is a text.
fn judge(alloc: Global, op: &[u8], found: Result<bool, TypeFault>) -> Result<bool, TypeFault>
    ensures { (left : List TypedExpr) (wanted : Result (List TypedExpr × Bool) Refusal)
        → IsGathered found left wanted → IsGathered result left (judged op.now wanted) }
{
    if found? {
        Err(refused(wrong_argument(alloc, op)))
    } else {
        Ok(false)
    }
}

/// Appends the typed conjuncts of an expression, and says whether it is a text.
#[cycle(gather)]
fn put_conjuncts(
    e: &Expr,
    alloc: Global,
    c: &Catalog,
    s: Scope,
    xs: &mut List<TypedExpr>,
) -> Result<bool, TypeFault>
    requires scope { IsScope c.now s }
    requires script { HasUtf8 e.now }
    ensures { IsGathered result xs.new (gathered xs.old (in_row c.now s e.now)) }
{
    parts_law(e);
    match &e.form {
        Form::And(es) => judge(alloc, b"and", put_members(es.as_slice(), alloc, c, s, xs)),
        _ => put_alone(type_in_row(e, alloc, c, s), xs),
    }
}

/// Appends the typed conjuncts of the members of an AND, and says whether one of them is a text.
#[cycle(gather)]
fn put_members(
    es: &[Expr],
    alloc: Global,
    c: &Catalog,
    s: Scope,
    xs: &mut List<TypedExpr>,
) -> Result<bool, TypeFault>
    requires scope { IsScope c.now s }
    requires script { AllByRecursion HasUtf8 es.now }
    ensures { IsGathered result xs.new
        (gathered_all xs.old false (map (in_row c.now s) es.now)) }
{
    let mut some_text = false;
    for e in es {
        let text = put_conjuncts(e, alloc, c, s, xs)?;
        some_text = some_text || text;
    }
    Ok(some_text)
}

/// Appends the conjuncts of WHERE, which takes a number.
fn put_where(
    alloc: Global,
    c: &Catalog,
    s: Scope,
    e: &Expr,
    xs: &mut List<TypedExpr>,
) -> Result<bool, TypeFault>
    requires scope { IsScope c.now s }
    requires script { HasUtf8 e.now }
    ensures { IsGathered result xs.new
        (judged (codes "where") (gathered xs.old (in_row c.now s e.now))) }
{
    judge(alloc, b"where", put_conjuncts(e, alloc, c, s, xs))
}

/// The conjuncts of the condition of WHERE.
fn conjuncts_of(
    alloc: Global,
    c: &Catalog,
    s: Scope,
    e: &Expr,
) -> Result<List<TypedExpr>, TypeFault>
    requires scope { IsScope c.now s }
    requires script { HasUtf8 e.now }
    ensures { IsWanted result (where_of c.now s (Some e.now)) }
{
    let mut xs = List::new(alloc);
    match put_where(alloc, c, s, e, &mut xs) {
        Ok(_) => Ok(xs),
        Err(fault) => Err(fault),
    }
}

/// The conjuncts of WHERE, where it is there.
pub(crate) fn where_of(
    alloc: Global,
    c: &Catalog,
    s: Scope,
    filter: &Option<Expr>,
) -> Result<List<TypedExpr>, TypeFault>
    requires scope { IsScope c.now s }
    requires script { IfSome filter.now HasUtf8 }
    ensures { IsWanted result (where_of c.now s filter.now) }
{
    match filter {
        Some(e) => conjuncts_of(alloc, c, s, e),
        None => Ok(List::new(alloc)),
    }
}
