ghost use Rattle.mc_ast.specs.Texts.{HasUtf8, HasUtf8To};
ghost use Rattle.mc_ast.specs.declared.expr.Form.TheViews.{out-Form};
ghost use Rattle.mc_typing.specs.Exprs.{in_row, taker_of};
ghost use Rattle.mc_typing.specs.Forms.{parts};
ghost use Rattle.mc_typing.specs.Scope.{IsScope};
ghost use Rattle.mc_typing.specs.Walk.{
  first_numbered,
  numbered,
  numbered_form,
  shape_of,
  with_operand,
  with_operands,
};
ghost use Rattle.mc_typing.specs.Wanted.{IsLeft, IsMade, IsWanted};
ghost use Rattle.mc_typing.specs.declared.shape.Shape.TheVariants.{Single, Several};
ghost use Rattle.std.specs.List.{AllByRecursion};
ghost use Rattle.std.specs.Prelude.{◌≡◌};

use crate::callee::{Callee, TEXTS, callee_of};
use crate::fault::TypeFault;
use crate::leaves::leaf;
use crate::made::{finish, put, single};
use crate::place::Place;
use crate::places::{place_at, place_below, settle};
use crate::scope::Scope;
use crate::shape::{Shape, shape_of};
use crate::strings::parts_law;
use crate::typed::{Func, TypedExpr};
use mc_ast::{Expr, Form};
use mc_base::List;
use mc_catalog::Catalog;
use std::alloc::Global;

/// The typed expression of a tree that stands in a row.
pub(crate) fn type_in_row(
    e: &Expr,
    alloc: Global,
    c: &Catalog,
    s: Scope,
) -> Result<TypedExpr, TypeFault>
    requires scope { IsScope c.now s }
    requires script { HasUtf8 e.now }
    ensures { IsWanted result (in_row c.now s e.now) }
{
    let mut next = 0;
    type_expr(e, alloc, c, s, &[], Place::Row, &mut next)
}

/// The typed expression of a tree at a place, in a statement with such GROUP BY expressions. Its
/// aggregates are numbered from `next`, which is moved behind them.
#[cycle(walk)]
pub(crate) fn type_expr(
    e: &Expr,
    alloc: Global,
    c: &Catalog,
    s: Scope,
    groups: &[Expr],
    place: Place,
    next: &mut u32,
) -> Result<TypedExpr, TypeFault>
    requires scope { IsScope c.now s }
    requires script { HasUtf8 e.now }
    ensures { IsMade result next.new (numbered c.now s groups.now place next.old e.now) }
{
    parts_law(e);
    let first = *next;
    let place = place_at(groups, place, e);
    let x = type_form(&e.form, alloc, c, s, groups, place, next)?;
    settle(&e.form, first, next)?;
    Ok(x)
}

/// The typed expression of a form at its own place. `next` is moved behind its operands.
#[cycle(walk)]
fn type_form(
    form: &Form,
    alloc: Global,
    c: &Catalog,
    s: Scope,
    groups: &[Expr],
    place: Place,
    next: &mut u32,
) -> Result<TypedExpr, TypeFault>
    requires scope { IsScope c.now s }
    requires own { HasUtf8To 1 form.now }
    requires script { AllByRecursion HasUtf8 (parts (out-Form form.now)) }
    ensures { IsMade result next.new
        (numbered_form c.now s groups.now place next.old (out-Form form.now)) }
{
    let below = place_below(place, form);
    match shape_of(form) {
        Shape::Leaf => leaf(alloc, c, s, place, *next, form),
        Shape::Single => {
            let x = type_part(form, alloc, c, s, groups, below, next)?;
            single(alloc, c, s, place, *next, form, x)
        }
        Shape::Several => {
            let first = *next;
            let mut xs = List::new(alloc);
            let done = put_parts(form, alloc, c, s, groups, below, next, &mut xs);
            finish(alloc, c, s, groups, place, first, *next, form, done, xs)
        }
    }
}

/// The typed operand of a form that has one.
#[cycle(walk)]
fn type_part(
    form: &Form,
    alloc: Global,
    c: &Catalog,
    s: Scope,
    groups: &[Expr],
    place: Place,
    next: &mut u32,
) -> Result<TypedExpr, TypeFault>
    requires scope { IsScope c.now s }
    requires script { AllByRecursion HasUtf8 (parts (out-Form form.now)) }
    requires shape { shape_of (out-Form form.now) ≡ Single }
    ensures { IsMade result next.new
        (first_numbered c.now s groups.now place next.old (parts (out-Form form.now))) }
{
    match form {
        Form::Not(x) | Form::Neg(x) | Form::CastBinary(x) | Form::CountDistinct(x) => {
            type_expr(x.get(), alloc, c, s, groups, place, next)
        }
        Form::IsNull { expr, .. }
        | Form::Collate { expr, .. }
        | Form::Convert { expr, .. }
        | Form::CastChar { expr, .. }
        | Form::WeightString { expr, .. } => {
            type_expr(expr.get(), alloc, c, s, groups, place, next)
        }
        Form::Call { args, .. } => match args.as_slice() {
            [x] => type_expr(x, alloc, c, s, groups, place, next),
            _ => unreachable!(),
        },
        _ => unreachable!(),
    }
}

/// Appends the typed operands of a form, up to the first that is refused.
#[cycle(walk)]
fn put_parts(
    form: &Form,
    alloc: Global,
    c: &Catalog,
    s: Scope,
    groups: &[Expr],
    place: Place,
    next: &mut u32,
    xs: &mut List<TypedExpr>,
) -> Result<(), TypeFault>
    requires scope { IsScope c.now s }
    requires script { AllByRecursion HasUtf8 (parts (out-Form form.now)) }
    requires shape { shape_of (out-Form form.now) ≡ Several }
    ensures { IsLeft result (xs.new, next.new) (with_operands c.now s groups.now place
        (taker_of (out-Form form.now)) xs.old next.old (parts (out-Form form.now))) }
{
    match form {
        Form::Or(es) | Form::And(es) => put_list(
            es.as_slice(),
            alloc,
            c,
            s,
            groups,
            place,
            None,
            next,
            xs,
        ),
        Form::Call { name, args } => {
            put_list(
                args.as_slice(),
                alloc,
                c,
                s,
                groups,
                place,
                callee_of(name.as_slice()),
                next,
                xs,
            )
        }
        Form::Xor(left, right)
        | Form::Compare { left, right, .. }
        | Form::Arith { left, right, .. } => {
            put(
                alloc,
                c,
                s,
                None,
                type_expr(left.get(), alloc, c, s, groups, place, next),
                xs,
            )?;
            put(
                alloc,
                c,
                s,
                None,
                type_expr(right.get(), alloc, c, s, groups, place, next),
                xs,
            )
        }
        Form::Like { expr, pattern, .. } => {
            put(
                alloc,
                c,
                s,
                TEXTS,
                type_expr(expr.get(), alloc, c, s, groups, place, next),
                xs,
            )?;
            put(
                alloc,
                c,
                s,
                TEXTS,
                type_expr(pattern.get(), alloc, c, s, groups, place, next),
                xs,
            )
        }
        Form::In { expr, list, .. } => {
            put(
                alloc,
                c,
                s,
                None,
                type_expr(expr.get(), alloc, c, s, groups, place, next),
                xs,
            )?;
            put_list(list.as_slice(), alloc, c, s, groups, place, None, next, xs)
        }
        Form::Between {
            expr,
            low,
            high,
            ..
        } => {
            put(
                alloc,
                c,
                s,
                None,
                type_expr(expr.get(), alloc, c, s, groups, place, next),
                xs,
            )?;
            put(
                alloc,
                c,
                s,
                None,
                type_expr(low.get(), alloc, c, s, groups, place, next),
                xs,
            )?;
            put(
                alloc,
                c,
                s,
                None,
                type_expr(high.get(), alloc, c, s, groups, place, next),
                xs,
            )
        }
        Form::Trim { removed, text, .. } => {
            if let Some(removed) = removed {
                put(
                    alloc,
                    c,
                    s,
                    TEXTS,
                    type_expr(removed.get(), alloc, c, s, groups, place, next),
                    xs,
                )?;
            }
            put(
                alloc,
                c,
                s,
                TEXTS,
                type_expr(text.get(), alloc, c, s, groups, place, next),
                xs,
            )
        }
        Form::SubstringFrom { expr, start, len } => {
            let taker = Some(Callee::Of(Func::Substring));
            put(
                alloc,
                c,
                s,
                taker,
                type_expr(expr.get(), alloc, c, s, groups, place, next),
                xs,
            )?;
            put(
                alloc,
                c,
                s,
                taker,
                type_expr(start.get(), alloc, c, s, groups, place, next),
                xs,
            )?;
            match len {
                Some(len) => put(
                    alloc,
                    c,
                    s,
                    taker,
                    type_expr(len.get(), alloc, c, s, groups, place, next),
                    xs,
                ),
                None => Ok(()),
            }
        }
        _ => unreachable!(),
    }
}

/// Appends typed operands of a list, up to the first that is refused.
#[cycle(walk)]
fn put_list(
    es: &[Expr],
    alloc: Global,
    c: &Catalog,
    s: Scope,
    groups: &[Expr],
    place: Place,
    callee: Option<Callee>,
    next: &mut u32,
    xs: &mut List<TypedExpr>,
) -> Result<(), TypeFault>
    requires scope { IsScope c.now s }
    requires script { AllByRecursion HasUtf8 es.now }
    ensures { IsLeft result (xs.new, next.new)
        (with_operands c.now s groups.now place callee xs.old next.old es.now) }
{
    for e in es {
        put(
            alloc,
            c,
            s,
            callee,
            type_expr(e, alloc, c, s, groups, place, next),
            xs,
        )?;
    }
    Ok(())
}
