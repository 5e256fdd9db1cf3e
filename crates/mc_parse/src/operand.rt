//! Operands, and the trees that operators make of them.

ghost use Rattle.std.specs.Prelude.{◌≡◌, IfOk};
ghost use Rattle.mc_ast.specs.declared.expr.Form.{Form};
ghost use Rattle.mc_ast.specs.declared.expr.Form.TheVariants as form;
ghost use Rattle.mc_ast.specs.Grouping.{whole};
ghost use Rattle.mc_ast.specs.Spans.{from_to};
ghost use Rattle.mc_parse.specs.Read.{as_operand};

use crate::boxes::{boxed_three, boxed_two};
use mc_ast::{ArithOp, CmpOp, Expr, Form};
use mc_base::{Boxed, List, NoMemory, Span, Text};
use std::alloc::Global;

/// An expression where it stands: its tree, and the bytes of all its tokens, outer parentheses
/// included.
#[derive(Drop)]
pub(crate) struct Operand {
    pub(crate) expr: Expr,
    pub(crate) extent: Span,
}

/// From the start of one to the end of another.
pub(crate) fn from_to(first: Span, last: Span) -> Span
    ensures { result ≡ from_to first last }
{
    Span {
        start: first.start,
        end: last.end,
    }
}

/// An operand of this form whose tokens are all its own.
pub(crate) fn whole(span: Span, form: Form) -> Operand
    ensures { as_operand result ≡ whole span form }
{
    Operand {
        expr: Expr { span, form },
        extent: span,
    }
}

/// An operand and the collation behind it, which stands at `extent`.
pub(crate) fn collated(
    alloc: Global,
    operand: Operand,
    name: Text,
    extent: Span,
) -> Result<Operand, NoMemory>
    ensures { IfOk result (λ x. as_operand x ≡
        whole (from_to operand.extent extent) (form.Collate operand.expr name)) }
{
    let span = from_to(operand.extent, extent);
    let expr = Boxed::new(alloc, operand.expr)?;
    Ok(whole(span, Form::Collate { expr, name }))
}

/// Two operands and the operator between them.
pub(crate) fn arith(
    alloc: Global,
    op: ArithOp,
    left: Operand,
    right: Operand,
) -> Result<Operand, NoMemory>
    ensures { IfOk result (λ x. as_operand x ≡
        whole (from_to left.extent right.extent) (form.Arith op left.expr right.expr)) }
{
    let span = from_to(left.extent, right.extent);
    let (left, right) = boxed_two(alloc, left.expr, right.expr)?;
    Ok(whole(span, Form::Arith { op, left, right }))
}

/// An operand and the minus before it, which stands at `sign`.
pub(crate) fn negative(alloc: Global, sign: Span, operand: Operand) -> Result<Operand, NoMemory>
    ensures { IfOk result (λ x. as_operand x ≡
        whole (from_to sign operand.extent) (form.Neg operand.expr)) }
{
    let span = from_to(sign, operand.extent);
    let expr = Boxed::new(alloc, operand.expr)?;
    Ok(whole(span, Form::Neg(expr)))
}

/// Two operands and the XOR between them.
pub(crate) fn xored(alloc: Global, left: Operand, right: Operand) -> Result<Operand, NoMemory>
    ensures { IfOk result (λ x. as_operand x ≡
        whole (from_to left.extent right.extent) (form.Xor left.expr right.expr)) }
{
    let span = from_to(left.extent, right.extent);
    let (left, right) = boxed_two(alloc, left.expr, right.expr)?;
    Ok(whole(span, Form::Xor(left, right)))
}

/// An operand and the NOT before it, which stands at `word`.
pub(crate) fn opposite(alloc: Global, word: Span, operand: Operand) -> Result<Operand, NoMemory>
    ensures { IfOk result (λ x. as_operand x ≡
        whole (from_to word operand.extent) (form.Not operand.expr)) }
{
    let span = from_to(word, operand.extent);
    let expr = Boxed::new(alloc, operand.expr)?;
    Ok(whole(span, Form::Not(expr)))
}

/// Two operands and the comparison between them.
pub(crate) fn compare(
    alloc: Global,
    op: CmpOp,
    left: Operand,
    right: Operand,
) -> Result<Operand, NoMemory>
    ensures { IfOk result (λ x. as_operand x ≡
        whole (from_to left.extent right.extent) (form.Compare op left.expr right.expr)) }
{
    let span = from_to(left.extent, right.extent);
    let (left, right) = boxed_two(alloc, left.expr, right.expr)?;
    Ok(whole(span, Form::Compare { op, left, right }))
}

/// IS NULL of an operand, up to `end`.
pub(crate) fn is_null(
    alloc: Global,
    left: Operand,
    negated: bool,
    end: Span,
) -> Result<Operand, NoMemory>
    ensures { IfOk result (λ x. as_operand x ≡
        whole (from_to left.extent end) (form.IsNull left.expr negated)) }
{
    let span = from_to(left.extent, end);
    let expr = Boxed::new(alloc, left.expr)?;
    Ok(whole(span, Form::IsNull { expr, negated }))
}

/// LIKE of an operand and a pattern, up to `end`.
pub(crate) fn like(
    alloc: Global,
    left: Operand,
    negated: bool,
    pattern: Operand,
    escape: Option<Text>,
    end: Span,
) -> Result<Operand, NoMemory>
    ensures { IfOk result (λ x. as_operand x ≡
        whole (from_to left.extent end) (form.Like left.expr pattern.expr escape negated)) }
{
    let span = from_to(left.extent, end);
    let (expr, pattern) = boxed_two(alloc, left.expr, pattern.expr)?;
    let form = Form::Like {
        expr,
        pattern,
        escape,
        negated,
    };
    Ok(whole(span, form))
}

/// IN of an operand and a list, up to `end`.
pub(crate) fn member(
    alloc: Global,
    left: Operand,
    list: List<Expr>,
    negated: bool,
    end: Span,
) -> Result<Operand, NoMemory>
    ensures { IfOk result (λ x. as_operand x ≡
        whole (from_to left.extent end) (form.In left.expr list negated)) }
{
    let span = from_to(left.extent, end);
    let expr = Boxed::new(alloc, left.expr)?;
    let form = Form::In {
        expr,
        list,
        negated,
    };
    Ok(whole(span, form))
}

/// BETWEEN of three operands.
pub(crate) fn between(
    alloc: Global,
    left: Operand,
    low: Operand,
    high: Operand,
    negated: bool,
) -> Result<Operand, NoMemory>
    ensures { IfOk result (λ x. as_operand x ≡ whole (from_to left.extent high.extent)
        (form.Between left.expr low.expr high.expr negated)) }
{
    let span = from_to(left.extent, high.extent);
    let (expr, low, high) = boxed_three(alloc, left.expr, low.expr, high.expr)?;
    let form = Form::Between {
        expr,
        low,
        high,
        negated,
    };
    Ok(whole(span, form))
}
