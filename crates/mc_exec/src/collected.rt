ghost use Rattle.mc_exec.specs.Aggregates.{aggregates_in, aggregates_of, with_itself};
ghost use Rattle.mc_typing.specs.AggregateTypes.{is_aggregate_node};
ghost use Rattle.mc_typing.specs.Parts.{node_parts};
ghost use Rattle.mc_typing.specs.declared.typed.Node.TheViews.{out-Node};
ghost use Rattle.std.specs.List.{flat_map};
ghost use Rattle.std.specs.Prelude.{◌≡◌, ◌++◌, [], OnOk, map};

use mc_base::{List, NoMemory};
use mc_typing::{Node, Typed, TypedExpr, TypedOrder};

/// Whether a node is an aggregate.
fn is_aggregate(node: &Node) -> bool
    ensures { result ≡ is_aggregate_node (out-Node node.now) }
{
    matches!(node, Node::Aggregate { .. })
}

/// What the aggregates of an expression are.
fn aggregates_law(e: &TypedExpr)
    ensures { aggregates_of e.now ≡ with_itself (is_aggregate_node (out-Node e.now.node))
        (flat_map aggregates_of (node_parts (out-Node e.now.node))) e.now }
{}

/// Appends the aggregates of a node's operands.
#[cycle(collect)]
fn put_operands<'a>(node: &'a Node, found: &mut List<&'a TypedExpr>) -> Result<(), NoMemory>
    ensures { OnOk result (map (λ x. x.now) found.new ≡ map (λ x. x.now) found.old
        ++ flat_map aggregates_of (node_parts (out-Node node.now))) }
{
    match node {
        Node::Const(_) | Node::Column(_) => Ok(()),
        Node::Collate(x) | Node::Not(x) | Node::Neg(x) => put_aggregates(x.get(), found),
        Node::IsNull { expr, .. }
        | Node::NumberText { expr, .. }
        | Node::Convert { expr, .. }
        | Node::WeightString { expr, .. } => put_aggregates(expr.get(), found),
        Node::Aggregate { arg, .. } => match arg {
            Some(x) => put_aggregates(x.get(), found),
            None => Ok(()),
        },
        Node::Compare { args, .. }
        | Node::Like { args, .. }
        | Node::In { args, .. }
        | Node::Between { args, .. }
        | Node::Arith { args, .. }
        | Node::Call { args, .. } => put_each(args.as_slice(), found),
        Node::And(xs) | Node::Or(xs) | Node::Xor(xs) => put_each(xs.as_slice(), found),
    }
}

/// Appends the aggregates of expressions.
#[cycle(collect)]
fn put_each<'a>(xs: &'a [TypedExpr], found: &mut List<&'a TypedExpr>) -> Result<(), NoMemory>
    ensures { OnOk result (map (λ x. x.now) found.new ≡ map (λ x. x.now) found.old
        ++ flat_map aggregates_of xs.now) }
{
    for x in xs {
        put_aggregates(x, found)?;
    }
    Ok(())
}

/// Appends the aggregates of an expression, operands before their operation.
#[cycle(collect)]
fn put_aggregates<'a>(e: &'a TypedExpr, found: &mut List<&'a TypedExpr>) -> Result<(), NoMemory>
    ensures { OnOk result (map (λ x. x.now) found.new ≡ map (λ x. x.now) found.old
        ++ aggregates_of e.now) }
{
    aggregates_law(e);
    put_operands(&e.node, found)?;
    if is_aggregate(&e.node) {
        return found.push(e);
    }
    Ok(())
}

/// Appends the aggregates of keys.
fn put_order_aggregates<'a>(
    orders: &'a [TypedOrder],
    found: &mut List<&'a TypedExpr>,
) -> Result<(), NoMemory>
    ensures { OnOk result (map (λ x. x.now) found.new ≡ map (λ x. x.now) found.old
        ++ flat_map (λ key. aggregates_of key.expr) orders.now) }
{
    for key in orders {
        put_aggregates(&key.expr, found)?;
    }
    Ok(())
}

/// Appends the aggregates of a statement to a list without any.
pub(crate) fn put_statement_aggregates<'a>(
    q: &'a Typed,
    found: &mut List<&'a TypedExpr>,
) -> Result<(), NoMemory>
    requires { found.old ≡ [] }
    ensures { OnOk result (map (λ x. x.now) found.new ≡ aggregates_in q.now) }
{
    put_each(q.items.as_slice(), found)?;
    put_order_aggregates(q.orders.as_slice(), found)
}
