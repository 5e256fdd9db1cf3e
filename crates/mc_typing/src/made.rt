ghost use Rattle.mc_ast.specs.declared.expr.Form.TheViews.{out-Form};
ghost use Rattle.mc_base.specs.declared.refusal.Refusal.{Refusal};
ghost use Rattle.mc_catalog.specs.declared.catalog.Catalog.{Catalog};
ghost use Rattle.mc_typing.specs.Aggregates.{is_aggregate};
ghost use Rattle.mc_typing.specs.Calls.{call};
ghost use Rattle.mc_typing.specs.Exprs.{taker_of, typed_node};
ghost use Rattle.mc_typing.specs.Forms.{parts};
ghost use Rattle.mc_typing.specs.Functions.{callee_of};
ghost use Rattle.mc_typing.specs.Operands.{AreTyped};
ghost use Rattle.mc_typing.specs.Places.{place_below};
ghost use Rattle.mc_typing.specs.Scope.{IsScope};
ghost use Rattle.mc_typing.specs.Walk.{
  numbered_form,
  shape_of,
  with_operand,
  with_operands,
};
ghost use Rattle.mc_typing.specs.Wanted.{IsLeft, IsMade, IsWanted};
ghost use Rattle.mc_typing.specs.declared.place.Place.{Place};
ghost use Rattle.mc_typing.specs.declared.scope.Scope.{Scope};
ghost use Rattle.mc_typing.specs.declared.shape.Shape.TheVariants.{Several, Single};
ghost use Rattle.mc_typing.specs.declared.typed.TypedExpr.{TypedExpr};
ghost use Rattle.std.specs.Prelude.{◌≡◌, ℕ, [], ◌∷◌, Result, length, true};

use crate::aggregates::aggregate;
use crate::callee::{Callee, callee_of, turns_to_text};
use crate::calls::{call_named, function_call, trim, weights};
use crate::conversions::{cast_char, cast_to_bytes, collate, convert, turned};
use crate::fault::TypeFault;
use crate::laws::expression_law;
use crate::nodes::{and, arith, between, compare, is_in, is_null, like, neg, not, or, xor};
use crate::place::Place;
use crate::scope::Scope;
use crate::typed::{AggName, Func, TypedExpr};
use mc_ast::{Expr, Form};
use mc_base::{List, Text};
use mc_catalog::Catalog;
use std::alloc::Global;

/// Appends an operand that is typed, or passes its refusal on.
pub(crate) fn put(
    alloc: Global,
    c: &Catalog,
    s: Scope,
    callee: Option<Callee>,
    typed: Result<TypedExpr, TypeFault>,
    xs: &mut List<TypedExpr>,
) -> Result<(), TypeFault>
    requires scope { IsScope c.now s }
    ensures { (number : ℕ) (t : Result (TypedExpr × ℕ) Refusal) → IsMade typed number t
        → IsLeft result (xs.new, number) (with_operand c.now s callee xs.old t) }
{
    let x = typed?;
    let x = turned(alloc, c, s, turns_to_text(callee, xs.len()), x)?;
    xs.push(x)?;
    Ok(())
}

/// The typed expression of a form with one operand, which is typed.
pub(crate) fn single(
    alloc: Global,
    c: &Catalog,
    s: Scope,
    place: Place,
    number: u32,
    form: &Form,
    x: TypedExpr,
) -> Result<TypedExpr, TypeFault>
    requires scope { IsScope c.now s }
    requires shape { shape_of (out-Form form.now) ≡ Single }
    ensures { IsWanted result (typed_node c.now s place number (out-Form form.now) (x ∷ [])) }
{
    match form {
        Form::Not(_) => not(alloc, x),
        Form::Neg(_) => neg(alloc, x),
        Form::IsNull { negated, .. } => is_null(alloc, *negated, x),
        Form::Collate { name, .. } => collate(alloc, c, s, name, x),
        Form::Convert { set, .. } => convert(alloc, c, s, set.as_slice(), x),
        Form::CastChar { set, .. } => cast_char(alloc, c, s, set, x),
        Form::CastBinary(_) => cast_to_bytes(alloc, c, s, x),
        Form::CountDistinct(_) => {
            aggregate(alloc, place, number, b"count", AggName::Count, true, x)
        }
        Form::WeightString { cut, .. } => weights(alloc, *cut, x),
        Form::Call { name, .. } => call_aggregate(alloc, place, number, name, x),
        _ => unreachable!(),
    }
}

/// An aggregate that is called by its name, of its argument.
fn call_aggregate(
    alloc: Global,
    place: Place,
    number: u32,
    name: &Text,
    x: TypedExpr,
) -> Result<TypedExpr, TypeFault>
    requires { is_aggregate (callee_of name.now) ≡ true }
    ensures { (c : Catalog) (s : Scope)
        → IsWanted result (call c s place number name.now (callee_of name.now) (x ∷ [])) }
{
    match callee_of(name.as_slice()) {
        Some(Callee::Aggregate(which)) => {
            aggregate(alloc, place, number, name.as_slice(), which, false, x)
        }
        _ => unreachable!(),
    }
}

/// The typed expression of a form with several operands, which are typed.
fn several(
    alloc: Global,
    c: &Catalog,
    s: Scope,
    form: &Form,
    xs: List<TypedExpr>,
) -> Result<TypedExpr, TypeFault>
    requires scope { IsScope c.now s }
    requires typed { AreTyped c.now xs }
    requires shape { shape_of (out-Form form.now) ≡ Several }
    requires many { length xs ≡ length (parts (out-Form form.now)) }
    ensures { (place : Place) (number : ℕ)
        → IsWanted result (typed_node c.now s place number (out-Form form.now) xs) }
{
    match form {
        Form::Or(_) => or(alloc, xs),
        Form::And(_) => and(alloc, xs),
        Form::Xor(..) => xor(alloc, xs),
        Form::Compare { op, .. } => compare(alloc, c, *op, xs),
        Form::Like {
            escape,
            negated,
            ..
        } => like(alloc, c, escape, *negated, xs),
        Form::In { negated, .. } => is_in(alloc, c, *negated, xs),
        Form::Between { negated, .. } => between(alloc, c, *negated, xs),
        Form::Arith { op, .. } => arith(alloc, *op, xs),
        Form::Trim { side, .. } => trim(alloc, c, s, *side, xs),
        Form::SubstringFrom { .. } => {
            function_call(alloc, c, s, Func::Substring, b"substring", xs)
        }
        Form::Call { name, .. } => call_named(alloc, c, s, name, xs),
        _ => unreachable!(),
    }
}

/// The typed expression of a form whose operands were typed into a list, their aggregates numbered
/// from one number to another, or the refusal of the first that is refused.
pub(crate) fn finish(
    alloc: Global,
    c: &Catalog,
    s: Scope,
    groups: &[Expr],
    place: Place,
    first: u32,
    next: u32,
    form: &Form,
    done: Result<(), TypeFault>,
    xs: List<TypedExpr>,
) -> Result<TypedExpr, TypeFault>
    requires scope { IsScope c.now s }
    requires shape { shape_of (out-Form form.now) ≡ Several }
    requires operands { IsLeft done (xs, next) (with_operands c.now s groups.now
        (place_below place (out-Form form.now)) (taker_of (out-Form form.now)) [] first
        (parts (out-Form form.now))) }
    ensures { IsMade result next
        (numbered_form c.now s groups.now place first (out-Form form.now)) }
{
    let _groups = groups;
    expression_law();
    match done {
        Ok(_) => several(alloc, c, s, form, xs),
        Err(fault) => Err(fault),
    }
}
