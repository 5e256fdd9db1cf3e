ghost use Rattle.mc_eval.specs.Fit.{is_like, itself_fits};
ghost use Rattle.mc_eval.specs.Held.{HoldAllKept, HoldsKept, TellsAll, TellsHeld};
ghost use Rattle.mc_eval.specs.Outcomes.{Outcome};
ghost use Rattle.mc_eval.specs.Walk.{
  GoesOn,
  HasFitType,
  value_of_list,
  value_of_one,
  value_of_three,
  value_of_two,
};
ghost use Rattle.mc_typing.specs.declared.typed.Node.TheViews.{out-Node};
ghost use Rattle.std.specs.Prelude.{IsTrue, List};

use crate::arithmetic::{calculated, negated};
use crate::betweens::ends;
use crate::comparisons::comparison;
use crate::conversions::{converted, digits};
use crate::fault::EvalFault;
use crate::functions::call;
use crate::held::Held;
use crate::likes::matched;
use crate::lists::found;
use crate::operands::{made, made_truth, not, null_test, xor};
use crate::weights::weight_value;
use mc_base::{List, Steps};
use mc_order::Book;
use mc_typing::{Node, Ty};
use mc_values::Value;
use std::alloc::Global;

/// A node over what came of its one operand.
pub(crate) fn on_one<'a, B: Book>(
    node: &Node,
    alloc: Global,
    book: &B,
    x: Result<Held<'a>, EvalFault>,
) -> Result<Held<'a>, EvalFault>
    requires ty { HasFitType (B.count book.now) (out-Node node.now) }
    requires kept { HoldsKept x }
    ensures told { (o : Outcome) → TellsHeld o x.entry →
        TellsHeld (value_of_one (B.meaning book.now) (out-Node node.now) o) result }
    ensures kept { HoldsKept result }
{
    match node {
        Node::Collate(_) => x,
        Node::IsNull { negated, .. } => null_test(x, *negated),
        Node::Not(_) => not(x),
        Node::Neg(_) => made(negated(x)),
        Node::NumberText { charset, .. } => made(digits(alloc, *charset, x)),
        Node::Convert { to, .. } => made(converted(alloc, *to, x)),
        Node::WeightString { cut, expr } => {
            made(weight_value(alloc, book, *cut, expr.get().ty, x))
        }
        _ => Ok(Held::Made(Value::Null)),
    }
}

/// A node over what came of its two operands.
pub(crate) fn on_two<'a, B: Book, W>(
    node: &Node,
    alloc: Global,
    book: &B,
    x: Result<Held<'_>, EvalFault>,
    y: Result<Held<'_>, EvalFault>,
    work: &mut Steps<W>,
) -> Result<Held<'a>, EvalFault>
    requires itself { IsTrue (itself_fits (B.count book.now) (out-Node node.now)) }
    requires one { HoldsKept x }
    requires other { HoldsKept y }
    ensures told { (o p : Outcome) → TellsHeld o x.entry → TellsHeld p y.entry →
        TellsHeld (value_of_two (B.meaning book.now) (out-Node node.now) o p) result }
    ensures kept { HoldsKept result }
    ensures work { GoesOn (is_like (out-Node node.now)) work.old work.new }
{
    match node {
        Node::Compare { op, coll, .. } => made(comparison(alloc, book, *coll, *op, x, y)),
        Node::Like {
            coll,
            escape,
            negated,
            ..
        } => matched(alloc, book, *coll, *escape, *negated, x, y, work),
        Node::Xor(_) => xor(x, y),
        Node::Arith { op, .. } => made(calculated(*op, x, y)),
        _ => Ok(Held::Made(Value::Null)),
    }
}

/// A node over what came of its three operands.
pub(crate) fn on_three<'a, B: Book>(
    node: &Node,
    alloc: Global,
    book: &B,
    x: Result<Held<'_>, EvalFault>,
    y: Result<Held<'_>, EvalFault>,
    z: Result<Held<'_>, EvalFault>,
) -> Result<Held<'a>, EvalFault>
    requires itself { IsTrue (itself_fits (B.count book.now) (out-Node node.now)) }
    requires one { HoldsKept x }
    requires other { HoldsKept y }
    requires third { HoldsKept z }
    ensures told { (o p q : Outcome) → TellsHeld o x.entry → TellsHeld p y.entry
        → TellsHeld q z.entry →
        TellsHeld (value_of_three (B.meaning book.now) (out-Node node.now) o p q) result }
    ensures kept { HoldsKept result }
{
    match node {
        Node::Between { coll, negated, .. } => {
            made_truth(ends(alloc, book, *coll, x, y, z), *negated)
        }
        _ => Ok(Held::Made(Value::Null)),
    }
}

/// A node of a type over what came of all its operands.
pub(crate) fn on_list<'a, B: Book>(
    node: &Node,
    ty: Ty,
    alloc: Global,
    book: &B,
    operands: Result<List<Held<'_>>, EvalFault>,
) -> Result<Held<'a>, EvalFault>
    requires itself { IsTrue (itself_fits (B.count book.now) (out-Node node.now)) }
    requires kept { HoldAllKept operands }
    ensures told { (os : List Outcome) → TellsAll os operands.entry →
        TellsHeld (value_of_list (B.meaning book.now) (out-Node node.now) ty os) result }
    ensures kept { HoldsKept result }
{
    match node {
        Node::In { coll, negated, .. } => found(alloc, book, *coll, *negated, operands),
        Node::Call { name, uses, .. } => made(call(alloc, book, *name, *uses, ty, operands)),
        _ => Ok(Held::Made(Value::Null)),
    }
}
