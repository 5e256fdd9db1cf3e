ghost use Rattle.mc_eval.specs.Fit.{fits, has_like, itself_fits};
ghost use Rattle.mc_eval.specs.Node.{Place};
ghost use Rattle.mc_eval.specs.Shapes.{pair_of, parts_in, parts_of, triple_of};
ghost use Rattle.mc_eval.specs.Walk.{DoFit, HasFitType, HasKeptConstant, HasValue, HaveNoLike};
ghost use Rattle.mc_typing.specs.declared.typed.Node.TheViews.{out-Node};
ghost use Rattle.std.specs.Prelude.{◌≡◌, ℕ, IsTrue, false};

use mc_base::List;
use mc_typing::{Node, TypedExpr};

/// The operands of a node, by how they are evaluated.
#[derive(Drop)]
pub(crate) enum Shape<'a> {
    Leaf,
    One(&'a TypedExpr),
    Two(&'a TypedExpr, &'a TypedExpr),
    Three(&'a TypedExpr, &'a TypedExpr, &'a TypedExpr),
    /// The members of OR, or of AND.
    Chain(bool, &'a [TypedExpr]),
    Listed(&'a [TypedExpr]),
}

/// Two operands.
fn pair(args: &List<TypedExpr>) -> Shape<'_>
    ensures { parts_in result ≡ pair_of args.now }
{
    match args.as_slice() {
        [x, y] => Shape::Two(x, y),
        _ => Shape::Leaf,
    }
}

/// Three operands.
fn triple(args: &List<TypedExpr>) -> Shape<'_>
    ensures { parts_in result ≡ triple_of args.now }
{
    match args.as_slice() {
        [x, y, z] => Shape::Three(x, y, z),
        _ => Shape::Leaf,
    }
}

/// The operands of a node.
fn shape_of(node: &Node) -> Shape<'_>
    ensures { parts_in result ≡ parts_of (out-Node node.now) }
{
    match node {
        Node::Collate(x) | Node::Not(x) | Node::Neg(x) => Shape::One(x.get()),
        Node::IsNull { expr, .. }
        | Node::NumberText { expr, .. }
        | Node::Convert { expr, .. }
        | Node::WeightString { expr, .. } => Shape::One(expr.get()),
        Node::Compare { args, .. }
        | Node::Like { args, .. }
        | Node::Xor(args)
        | Node::Arith { args, .. } => pair(args),
        Node::Between { args, .. } => triple(args),
        Node::And(xs) => Shape::Chain(false, xs.as_slice()),
        Node::Or(xs) => Shape::Chain(true, xs.as_slice()),
        Node::In { args, .. } | Node::Call { args, .. } => Shape::Listed(args.as_slice()),
        Node::Const(_) | Node::Column(_) | Node::Aggregate { .. } => Shape::Leaf,
    }
}

/// What an expression is over its operands.
fn parts_law(e: &TypedExpr)
    ensures value { (p : Place) →
        HasValue p e.now (out-Node e.now.node) (parts_of (out-Node e.now.node)) }
    ensures fits { (n : ℕ) → IsTrue (fits n e.now) → DoFit n (parts_of (out-Node e.now.node)) }
    ensures itself { (n : ℕ) → IsTrue (fits n e.now) →
        IsTrue (itself_fits n (out-Node e.now.node)) }
    ensures constant { (n : ℕ) → IsTrue (fits n e.now) → HasKeptConstant (out-Node e.now.node) }
    ensures ty { (n : ℕ) → IsTrue (fits n e.now) → HasFitType n (out-Node e.now.node) }
    ensures like { has_like e.now ≡ false →
        HaveNoLike (out-Node e.now.node) (parts_of (out-Node e.now.node)) }
{}

/// The operands of an expression, by how they are evaluated.
pub(crate) fn parts(e: &TypedExpr) -> Shape<'_>
    ensures value { (p : Place) → HasValue p e.now (out-Node e.now.node) (parts_in result) }
    ensures fits { (n : ℕ) → IsTrue (fits n e.now) → DoFit n (parts_in result) }
    ensures itself { (n : ℕ) → IsTrue (fits n e.now) →
        IsTrue (itself_fits n (out-Node e.now.node)) }
    ensures constant { (n : ℕ) → IsTrue (fits n e.now) → HasKeptConstant (out-Node e.now.node) }
    ensures ty { (n : ℕ) → IsTrue (fits n e.now) → HasFitType n (out-Node e.now.node) }
    ensures like { has_like e.now ≡ false → HaveNoLike (out-Node e.now.node) (parts_in result) }
    ensures shape { parts_in result ≡ parts_of (out-Node e.now.node) }
{
    parts_law(e);
    shape_of(&e.node)
}
