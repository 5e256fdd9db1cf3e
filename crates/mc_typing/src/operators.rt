ghost use Rattle.mc_catalog.specs.Lawful.{IsLawful};
ghost use Rattle.mc_coerce.specs.Aggregate.{aggregate};
ghost use Rattle.mc_typing.specs.Messages.{mix};
ghost use Rattle.mc_typing.specs.Operands.{AreTyped, IsTextOf, text_operands};
ghost use Rattle.mc_typing.specs.Operators.{
  compared_by,
  comparison,
  need_number,
  need_numbers,
  number_expr,
  some_number,
  some_text,
  together,
  used,
};
ghost use Rattle.mc_typing.specs.Wanted.{IsWanted};
ghost use Rattle.std.specs.Prelude.{◌≡◌, All, IfOk};

use crate::fault::{TypeFault, refused};
use crate::messages::{mix, wrong_argument};
use crate::operands::{is_number, is_text, text_operand};
use crate::typed::{Node, Ty, TypedExpr};
use mc_base::{List, NoMemory};
use mc_catalog::Catalog;
use mc_charset::CollId;
use mc_coerce::{Agg, Operand, Purpose, aggregate, operands_law, result_law};
use std::alloc::Global;

/// An expression that is a number.
pub(crate) fn number_expr(node: Node) -> TypedExpr
    ensures { result ≡ number_expr node }
{
    TypedExpr { node, ty: Ty::Int }
}

/// Whether one of the operands is a text.
pub(crate) fn some_text(xs: &[TypedExpr]) -> bool
    ensures { result ≡ some_text xs.now }
{
    xs.iter().any(|x| is_text(x.ty))
}

/// Whether one of the operands is a number.
fn some_number(xs: &[TypedExpr]) -> bool
    ensures { result ≡ some_number xs.now }
{
    xs.iter().any(|x| is_number(x.ty))
}

/// What the operands are to an operation on texts.
fn text_operands(alloc: Global, c: &Catalog, xs: &[TypedExpr]) -> Result<List<Operand>, NoMemory>
    requires lawful { IsLawful c.now }
    requires typed { AreTyped c.now xs.now }
    ensures is { IfOk result (λ list. list ≡ text_operands xs.now) }
    ensures sound { IfOk result (All (IsTextOf c.now)) }
{
    let _catalog = c;
    operand_list(alloc, xs)
}

fn operand_list(alloc: Global, xs: &[TypedExpr]) -> Result<List<Operand>, NoMemory>
    ensures { IfOk result (λ list. list ≡ text_operands xs.now) }
{
    let mut list = List::new(alloc);
    for x in xs {
        list.push(text_operand(x.ty))?;
    }
    Ok(list)
}

/// What operands of texts have together, or the refusal of their mix.
fn used(
    alloc: Global,
    c: &Catalog,
    op: &[u8],
    operands: &[Operand],
    purpose: Purpose,
) -> Result<Operand, TypeFault>
    requires lawful { IsLawful c.now }
    requires sound { All (IsTextOf c.now) operands.now }
    ensures is { IsWanted result (used (mix c.now op.now operands.now)
        (aggregate operands.now purpose)) }
    ensures sound { IfOk result (IsTextOf c.now) }
{
    operands_law();
    result_law();
    match aggregate(operands, purpose) {
        Agg::Uses(operand) => Ok(operand),
        Agg::Mix => Err(refused(mix(alloc, c, op, operands))),
    }
}

/// What the texts among the operands of an operation have together.
pub(crate) fn together(
    alloc: Global,
    c: &Catalog,
    op: &[u8],
    purpose: Purpose,
    xs: &[TypedExpr],
) -> Result<Operand, TypeFault>
    requires lawful { IsLawful c.now }
    requires typed { AreTyped c.now xs.now }
    ensures is { IsWanted result (together c.now op.now purpose xs.now) }
    ensures sound { IfOk result (IsTextOf c.now) }
{
    let operands = text_operands(alloc, c, xs)?;
    used(alloc, c, op, operands.as_slice(), purpose)
}

/// The collation that operands are compared by.
pub(crate) fn compared_by(
    alloc: Global,
    c: &Catalog,
    op: &[u8],
    xs: &[TypedExpr],
) -> Result<CollId, TypeFault>
    requires lawful { IsLawful c.now }
    requires typed { AreTyped c.now xs.now }
    ensures { IsWanted result (compared_by c.now op.now xs.now) }
{
    Ok(together(alloc, c, op, Purpose::Compare, xs)?.collation)
}

/// How operands are compared: all of them texts, by a collation, or all of them numbers.
pub(crate) fn comparison(
    alloc: Global,
    c: &Catalog,
    op: &[u8],
    xs: &[TypedExpr],
) -> Result<Option<CollId>, TypeFault>
    requires lawful { IsLawful c.now }
    requires typed { AreTyped c.now xs.now }
    ensures { IsWanted result (comparison c.now op.now xs.now) }
{
    if !some_text(xs) {
        return Ok(None);
    }
    if some_number(xs) {
        return Err(refused(wrong_argument(alloc, op)));
    }
    Ok(Some(compared_by(alloc, c, op, xs)?))
}

/// Whether the operands are numbers, NULL among them; else the operation is refused.
pub(crate) fn need_numbers(alloc: Global, op: &[u8], xs: &[TypedExpr]) -> Result<(), TypeFault>
    ensures { IsWanted result (need_numbers op.now xs.now) }
{
    if some_text(xs) {
        Err(refused(wrong_argument(alloc, op)))
    } else {
        Ok(())
    }
}

/// The same of one operand.
pub(crate) fn need_number(alloc: Global, op: &[u8], x: &TypedExpr) -> Result<(), TypeFault>
    ensures { IsWanted result (need_number op.now x.now) }
{
    if is_text(x.ty) {
        Err(refused(wrong_argument(alloc, op)))
    } else {
        Ok(())
    }
}
