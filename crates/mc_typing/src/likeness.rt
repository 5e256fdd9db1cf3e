ghost use Rattle.mc_ast.specs.declared.expr.Form.TheViews.{out-Form};
ghost use Rattle.mc_typing.specs.Forms.{parts};
ghost use Rattle.mc_typing.specs.Arity.{any, arity, one, or_more, three, two};
ghost use Rattle.mc_typing.specs.Likeness.{
  alike,
  has_name,
  in_order,
  is_key,
  is_name,
  same_head,
};
ghost use Rattle.std.specs.Prelude.{◌≡◌, true};

use crate::heads::same_head;
use mc_ast::{Expr, Form};

/// Whether two expressions differ in spans alone.
#[cycle(likeness)]
pub(crate) fn alike(a: &Expr, b: &Expr) -> bool
    ensures { result ≡ alike a.now b.now }
{
    same_head(&a.form, &b.form) && operands_alike(&a.form, &b.form)
}

/// Whether the operands of two forms with the same head are alike.
#[cycle(likeness)]
fn operands_alike(a: &Form, b: &Form) -> bool
    requires head { same_head (out-Form a.now) (out-Form b.now) ≡ true }
    ensures { result ≡ in_order alike (parts (out-Form a.now)) (parts (out-Form b.now)) }
{
    match a {
        Form::Or(_) | Form::And(_) | Form::In { .. } | Form::Call { .. } => any_alike(a, b),
        Form::Xor(..) | Form::Compare { .. } | Form::Arith { .. } | Form::Like { .. } => {
            two_alike(a, b)
        }
        Form::Between { .. } => three_alike(a, b),
        Form::Trim { .. } | Form::SubstringFrom { .. } => or_more_alike(a, b),
        Form::Not(_)
        | Form::IsNull { .. }
        | Form::Neg(_)
        | Form::Collate { .. }
        | Form::Convert { .. }
        | Form::CastChar { .. }
        | Form::CastBinary(_)
        | Form::CountDistinct(_)
        | Form::WeightString { .. } => one_alike(a, b),
        _ => true,
    }
}

/// Whether the operand of two forms with the same head is alike.
#[cycle(likeness)]
fn one_alike(a: &Form, b: &Form) -> bool
    requires head { same_head (out-Form a.now) (out-Form b.now) ≡ true }
    requires arity { arity (out-Form a.now) ≡ one }
    ensures { result ≡ in_order alike (parts (out-Form a.now)) (parts (out-Form b.now)) }
{
    match (a, b) {
        (Form::Not(e), Form::Not(other))
        | (Form::IsNull { expr: e, .. }, Form::IsNull { expr: other, .. })
        | (Form::Neg(e), Form::Neg(other))
        | (Form::Collate { expr: e, .. }, Form::Collate { expr: other, .. })
        | (Form::Convert { expr: e, .. }, Form::Convert { expr: other, .. })
        | (Form::CastChar { expr: e, .. }, Form::CastChar { expr: other, .. })
        | (Form::CastBinary(e), Form::CastBinary(other))
        | (Form::CountDistinct(e), Form::CountDistinct(other))
        | (Form::WeightString { expr: e, .. }, Form::WeightString { expr: other, .. }) => {
            alike(e.get(), other.get())
        }
        _ => unreachable!(),
    }
}

/// The same of two operands.
#[cycle(likeness)]
fn two_alike(a: &Form, b: &Form) -> bool
    requires head { same_head (out-Form a.now) (out-Form b.now) ≡ true }
    requires arity { arity (out-Form a.now) ≡ two }
    ensures { result ≡ in_order alike (parts (out-Form a.now)) (parts (out-Form b.now)) }
{
    match (a, b) {
        (Form::Xor(left, right), Form::Xor(x, y))
        | (
            Form::Compare { left, right, .. },
            Form::Compare {
                left: x,
                right: y,
                ..
            },
        )
        | (
            Form::Arith { left, right, .. },
            Form::Arith {
                left: x,
                right: y,
                ..
            },
        ) => { alike(left.get(), x.get()) && alike(right.get(), y.get()) }
        (
            Form::Like { expr, pattern, .. },
            Form::Like {
                expr: x,
                pattern: y,
                ..
            },
        ) => { alike(expr.get(), x.get()) && alike(pattern.get(), y.get()) }
        _ => unreachable!(),
    }
}

/// The same of three operands.
#[cycle(likeness)]
fn three_alike(a: &Form, b: &Form) -> bool
    requires head { same_head (out-Form a.now) (out-Form b.now) ≡ true }
    requires arity { arity (out-Form a.now) ≡ three }
    ensures { result ≡ in_order alike (parts (out-Form a.now)) (parts (out-Form b.now)) }
{
    match (a, b) {
        (
            Form::Between {
                expr,
                low,
                high,
                ..
            },
            Form::Between {
                expr: x,
                low: y,
                high: z,
                ..
            },
        ) => {
            alike(expr.get(), x.get()) && alike(low.get(), y.get()) && alike(high.get(), z.get())
        }
        _ => unreachable!(),
    }
}

/// The same where one of the operands may be left out.
#[cycle(likeness)]
fn or_more_alike(a: &Form, b: &Form) -> bool
    requires head { same_head (out-Form a.now) (out-Form b.now) ≡ true }
    requires arity { arity (out-Form a.now) ≡ or_more }
    ensures { result ≡ in_order alike (parts (out-Form a.now)) (parts (out-Form b.now)) }
{
    match (a, b) {
        (
            Form::Trim { removed, text, .. },
            Form::Trim {
                removed: given,
                text: y,
                ..
            },
        ) => {
            match (removed, given) {
                (Some(removed), Some(x)) => {
                    alike(removed.get(), x.get()) && alike(text.get(), y.get())
                }
                (None, None) => alike(text.get(), y.get()),
                _ => false,
            }
        }
        (
            Form::SubstringFrom { expr, start, len },
            Form::SubstringFrom {
                expr: x,
                start: y,
                len: given,
            },
        ) => match (len, given) {
            (Some(len), Some(z)) => {
                alike(expr.get(), x.get())
                    && alike(start.get(), y.get())
                    && alike(len.get(), z.get())
            }
            (None, None) => alike(expr.get(), x.get()) && alike(start.get(), y.get()),
            _ => false,
        },
        _ => unreachable!(),
    }
}

/// The same of any number of operands.
#[cycle(likeness)]
fn any_alike(a: &Form, b: &Form) -> bool
    requires head { same_head (out-Form a.now) (out-Form b.now) ≡ true }
    requires arity { arity (out-Form a.now) ≡ any }
    ensures { result ≡ in_order alike (parts (out-Form a.now)) (parts (out-Form b.now)) }
{
    match (a, b) {
        (Form::Or(es), Form::Or(others))
        | (Form::And(es), Form::And(others))
        | (Form::Call { args: es, .. }, Form::Call { args: others, .. }) => {
            all_alike(es.as_slice(), others.as_slice())
        }
        (
            Form::In { expr, list, .. },
            Form::In {
                expr: x,
                list: others,
                ..
            },
        ) => { alike(expr.get(), x.get()) && all_alike(list.as_slice(), others.as_slice()) }
        _ => unreachable!(),
    }
}

/// Whether two lists of expressions differ in spans alone.
#[cycle(likeness)]
fn all_alike(es: &[Expr], others: &[Expr]) -> bool
    ensures { result ≡ in_order alike es.now others.now }
{
    let mut rest = others;
    for e in es {
        match rest.split_first() {
            Some((other, behind)) => {
                if !alike(e, other) {
                    return false;
                }
                rest = behind;
            }
            None => return false,
        }
    }
    rest.is_empty()
}

/// Whether one of the expressions of GROUP BY is like this one.
pub(crate) fn is_key(groups: &[Expr], e: &Expr) -> bool
    ensures { result ≡ is_key groups.now e.now }
{
    for group in groups {
        if alike(group, e) {
            return true;
        }
    }
    false
}

/// Whether a form is this name alone.
fn is_name(name: &[u8], form: &Form) -> bool
    ensures { result ≡ is_name name.now form.now }
{
    match form {
        Form::Name(own) => name == own.as_slice(),
        _ => false,
    }
}

/// Whether one of the expressions of GROUP BY is this name alone.
pub(crate) fn has_name(groups: &[Expr], name: &[u8]) -> bool
    ensures { result ≡ has_name groups.now name.now }
{
    for group in groups {
        if is_name(name, &group.form) {
            return true;
        }
    }
    false
}
