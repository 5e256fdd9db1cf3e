ghost use Rattle.mc_ast.specs.declared.expr.Form.TheViews.{out-Form};
ghost use Rattle.mc_typing.specs.Functions.{callee_of};
ghost use Rattle.mc_typing.specs.Walk.{call_shape, shape_of};
ghost use Rattle.std.specs.Prelude.{◌≡◌};

use crate::callee::{callee_of, is_aggregate};
use mc_ast::Form;

/// How many operands a form has.
#[derive(Clone, Copy)]
pub(crate) enum Shape {
    Leaf,
    Single,
    Several,
}

/// How many operands a call takes: an aggregate takes one by itself.
fn call_shape(name: &[u8], count: usize) -> Shape
    ensures { result ≡ call_shape (callee_of name.now) count }
{
    if is_aggregate(callee_of(name)) && count == 1 {
        Shape::Single
    } else {
        Shape::Several
    }
}

/// How many operands the form has.
pub(crate) fn shape_of(form: &Form) -> Shape
    ensures { result ≡ shape_of (out-Form form.now) }
{
    match form {
        Form::Or(_)
        | Form::And(_)
        | Form::Xor(..)
        | Form::Compare { .. }
        | Form::Like { .. }
        | Form::In { .. }
        | Form::Between { .. }
        | Form::Arith { .. }
        | Form::Trim { .. }
        | Form::SubstringFrom { .. } => Shape::Several,
        Form::Call { name, args } => call_shape(name.as_slice(), args.len()),
        Form::Not(_)
        | Form::IsNull { .. }
        | Form::Neg(_)
        | Form::Collate { .. }
        | Form::Convert { .. }
        | Form::CastChar { .. }
        | Form::CastBinary(_)
        | Form::CountDistinct(_)
        | Form::WeightString { .. } => Shape::Single,
        Form::Int(_)
        | Form::True
        | Form::False
        | Form::Null
        | Form::Str(_)
        | Form::National(_)
        | Form::Hex(_)
        | Form::IntroStr { .. }
        | Form::IntroHex { .. }
        | Form::Name(_)
        | Form::Qualified { .. }
        | Form::CountAll => Shape::Leaf,
    }
}
