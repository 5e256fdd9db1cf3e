ghost use Rattle.mc_ast.specs.declared.expr.Form.TheViews.{out-Form};
ghost use Rattle.mc_typing.specs.Likeness.{same_cut, same_head, same_side};
ghost use Rattle.mc_typing.specs.Names.{arith_name, cmp_name};
ghost use Rattle.mc_typing.specs.Walk.{shape_of};
ghost use Rattle.mc_typing.specs.declared.shape.Shape.TheVariants.{Leaf, Single, Several};
ghost use Rattle.std.specs.Prelude.{◌≡◌};
ghost use Rattle.std.specs.Option.{option_eq};
ghost use Rattle.std.specs.Str.{bytes_eq};

use crate::shape::{Shape, shape_of};
use mc_ast::{ArithOp, CmpOp, Cut, Form, TrimSide};
use mc_base::Text;

/// Whether two texts are the same.
fn same_text(text: &Text, other: &Text) -> bool
    ensures { result ≡ bytes_eq text.now other.now }
{
    text.as_slice() == other.as_slice()
}

/// Whether two texts are the same, if they are there.
fn same_option(text: &Option<Text>, other: &Option<Text>) -> bool
    ensures { result ≡ option_eq bytes_eq text.now other.now }
{
    match (text, other) {
        (None, None) => true,
        (Some(text), Some(other)) => same_text(text, other),
        _ => false,
    }
}

/// Whether two comparisons are the same.
fn same_cmp(op: CmpOp, other: CmpOp) -> bool
    ensures { result ≡ bytes_eq (cmp_name op) (cmp_name other) }
{
    op == other
}

/// Whether two operators on numbers are the same.
fn same_arith(op: ArithOp, other: ArithOp) -> bool
    ensures { result ≡ bytes_eq (arith_name op) (arith_name other) }
{
    op == other
}

/// Whether two sides of TRIM are the same.
fn same_side(side: TrimSide, other: TrimSide) -> bool
    ensures { result ≡ same_side side other }
{
    side == other
}

/// Whether two cuts are the same, if they are there.
fn same_cut(cut: Option<Cut>, other: Option<Cut>) -> bool
    ensures { result ≡ option_eq same_cut cut other }
{
    cut == other
}

/// Whether a form without operands is the other one.
fn same_leaf(a: &Form, b: &Form) -> bool
    requires shape { shape_of (out-Form a.now) ≡ Leaf }
    ensures { result ≡ same_head (out-Form a.now) (out-Form b.now) }
{
    match (a, b) {
        (Form::Int(n), Form::Int(m)) => *n == *m,
        (Form::True, Form::True)
        | (Form::False, Form::False)
        | (Form::Null, Form::Null)
        | (Form::CountAll, Form::CountAll) => true,
        (Form::Str(text), Form::Str(other))
        | (Form::National(text), Form::National(other))
        | (Form::Hex(text), Form::Hex(other))
        | (Form::Name(text), Form::Name(other)) => same_text(text, other),
        (
            Form::IntroStr { set, text },
            Form::IntroStr {
                set: given,
                text: other,
            },
        )
        | (
            Form::IntroHex { set, text },
            Form::IntroHex {
                set: given,
                text: other,
            },
        ) => { same_text(set, given) && same_text(text, other) }
        (
            Form::Qualified { table, name },
            Form::Qualified {
                table: given,
                name: other,
            },
        ) => { same_text(table, given) && same_text(name, other) }
        _ => false,
    }
}

/// Whether a form with one operand has the head of the other one.
fn same_single(a: &Form, b: &Form) -> bool
    requires shape { shape_of (out-Form a.now) ≡ Single }
    ensures { result ≡ same_head (out-Form a.now) (out-Form b.now) }
{
    match (a, b) {
        (Form::Not(_), Form::Not(_))
        | (Form::Neg(_), Form::Neg(_))
        | (Form::CastBinary(_), Form::CastBinary(_))
        | (Form::CountDistinct(_), Form::CountDistinct(_)) => true,
        (Form::IsNull { negated, .. }, Form::IsNull { negated: other, .. }) => *negated == *other,
        (Form::Collate { name: text, .. }, Form::Collate { name: other, .. })
        | (Form::Convert { set: text, .. }, Form::Convert { set: other, .. })
        | (Form::Call { name: text, .. }, Form::Call { name: other, .. }) => {
            same_text(text, other)
        }
        (Form::CastChar { set, .. }, Form::CastChar { set: other, .. }) => same_option(set, other),
        (Form::WeightString { cut, .. }, Form::WeightString { cut: other, .. }) => {
            same_cut(*cut, *other)
        }
        _ => false,
    }
}

/// Whether a form with several operands has the head of the other one.
fn same_several(a: &Form, b: &Form) -> bool
    requires shape { shape_of (out-Form a.now) ≡ Several }
    ensures { result ≡ same_head (out-Form a.now) (out-Form b.now) }
{
    match (a, b) {
        (Form::Or(_), Form::Or(_))
        | (Form::And(_), Form::And(_))
        | (Form::Xor(..), Form::Xor(..))
        | (Form::SubstringFrom { .. }, Form::SubstringFrom { .. }) => true,
        (Form::Compare { op, .. }, Form::Compare { op: other, .. }) => same_cmp(*op, *other),
        (Form::Arith { op, .. }, Form::Arith { op: other, .. }) => same_arith(*op, *other),
        (
            Form::Like {
                escape,
                negated,
                ..
            },
            Form::Like {
                escape: given,
                negated: other,
                ..
            },
        ) => same_option(escape, given) && *negated == *other,
        (Form::In { negated, .. }, Form::In { negated: other, .. })
        | (Form::Between { negated, .. }, Form::Between { negated: other, .. }) => {
            *negated == *other
        }
        (Form::Trim { side, .. }, Form::Trim { side: other, .. }) => same_side(*side, *other),
        (Form::Call { name, .. }, Form::Call { name: other, .. }) => same_text(name, other),
        _ => false,
    }
}

/// Whether two forms are of one kind and have the same data, operands aside.
pub(crate) fn same_head(a: &Form, b: &Form) -> bool
    ensures { result ≡ same_head (out-Form a.now) (out-Form b.now) }
{
    match shape_of(a) {
        Shape::Leaf => same_leaf(a, b),
        Shape::Single => same_single(a, b),
        Shape::Several => same_several(a, b),
    }
}
