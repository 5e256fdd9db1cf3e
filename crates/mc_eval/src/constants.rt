ghost use Rattle.mc_eval.specs.Fit.{is_kept};
ghost use Rattle.mc_eval.specs.Held.{HoldsKept, TellsHeld};
ghost use Rattle.mc_eval.specs.Node.{at_place};
ghost use Rattle.mc_eval.specs.Outcomes.{IsKept};
ghost use Rattle.mc_eval.specs.Outcomes.Outcome.{gives};
ghost use Rattle.mc_eval.specs.Walk.{HasKeptConstant, value_of_leaf};
ghost use Rattle.mc_typing.specs.declared.typed.Node.TheViews.{out-Node};
ghost use Rattle.mc_values.specs.declared.value.Value.TheVariants as value;
ghost use Rattle.std.specs.Prelude.{All, IsTrue};

use crate::fault::EvalFault;
use crate::held::Held;
use crate::operands::at_place;
use mc_base::Text;
use mc_charset::{Charset, chars_law};
use mc_typing::Node;
use mc_values::{Row, Value};

/// A string of a constant that is a text of its set, no longer than a string may be, may be kept.
fn text_law(charset: Charset, text: &Text)
    requires { IsTrue (is_kept (value.Str charset text.now)) }
    ensures { IsKept (value.Str charset text.now) }
{
    let (_charset, _text) = (charset, text);
    chars_law();
}

/// A constant that may be kept.
fn constant_law(value: &Value)
    requires { IsTrue (is_kept value.now) }
    ensures { IsKept value.now }
{
    match value {
        Value::Null | Value::Int(_) => {}
        Value::Str { charset, text } => text_law(*charset, text),
    }
}

/// A constant.
fn constant<'a>(value: &'a Value) -> Result<Held<'a>, EvalFault>
    requires { IsTrue (is_kept value.now) }
    ensures told { TellsHeld (gives value.now) result }
    ensures kept { HoldsKept result }
{
    constant_law(value);
    Ok(Held::Lent(value))
}

/// The value of a node without operands.
pub(crate) fn leaf<'a>(
    node: &'a Node,
    row: &'a Row,
    aggregates: &'a Row,
) -> Result<Held<'a>, EvalFault>
    requires constant { HasKeptConstant (out-Node node.now) }
    requires row { All IsKept row.now }
    requires aggregates { All IsKept aggregates.now }
    ensures told { TellsHeld (value_of_leaf row.now aggregates.now (out-Node node.now)) result }
    ensures kept { HoldsKept result }
{
    match node {
        Node::Const(value) => constant(value),
        Node::Column(place) => at_place(row, *place),
        Node::Aggregate { place, .. } => at_place(aggregates, *place),
        _ => Ok(Held::Made(Value::Null)),
    }
}
