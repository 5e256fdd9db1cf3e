ghost use Rattle.mc_plan.specs.Constants.{HasText, cell, cell_in, cells, constant};
ghost use Rattle.mc_range.specs.Condition.{IsCellOf};
ghost use Rattle.mc_values.specs.Values.{IsTextOfSet};
ghost use Rattle.std.specs.Prelude.{◌≡◌, All, IfOk, IfSome, option_map};

use mc_base::{List, NoMemory};
use mc_charset::Charset;
use mc_convert::convert;
use mc_range::Cell;
use mc_typing::{Node, TypedExpr};
use mc_values::Value;
use std::alloc::Global;

/// The value of a literal, or of one under a COLLATE.
fn constant(e: &TypedExpr) -> Option<&Value>
    ensures { option_map (λ it. it.now) result ≡ constant e.now }
{
    let node = match &e.node {
        Node::Collate(x) => &x.get().node,
        node => node,
    };
    match node {
        Node::Const(it) => Some(it),
        _ => None,
    }
}

/// A string as a text of a set, or NULL.
fn cell_in(alloc: Global, set: Charset, it: &Value) -> Result<Option<Cell>, NoMemory>
    requires { IsTextOfSet it.now }
    ensures is { IfOk result (λ made. made ≡ cell_in set it.now) }
    ensures of_set { IfOk result (λ made. IfSome made (IsCellOf set)) }
{
    match it {
        Value::Null => Ok(Some(Cell::Null)),
        Value::Int(_) => Ok(None),
        Value::Str { charset, text } => {
            let made = convert(alloc, *charset, set, text.as_slice())?;
            Ok(Some(Cell::Str(made)))
        }
    }
}

/// The constant that an operand is, in a set.
pub(crate) fn cell(alloc: Global, set: Charset, e: &TypedExpr) -> Result<Option<Cell>, NoMemory>
    requires { HasText e.now }
    ensures is { IfOk result (λ made. made ≡ cell set e.now) }
    ensures of_set { IfOk result (λ made. IfSome made (IsCellOf set)) }
{
    match constant(e) {
        Some(it) => cell_in(alloc, set, it),
        None => Ok(None),
    }
}

/// The constants that operands are, if each is one.
pub(crate) fn cells(
    alloc: Global,
    set: Charset,
    xs: &[TypedExpr],
) -> Result<Option<List<Cell>>, NoMemory>
    requires { All HasText xs.now }
    ensures is { IfOk result (λ made. made ≡ cells set xs.now) }
    ensures of_set { IfOk result (λ made. IfSome made (All (IsCellOf set))) }
{
    let mut cells = List::new(alloc);
    for x in xs {
        match cell(alloc, set, x)? {
            Some(it) => cells.push(it)?,
            None => return Ok(None),
        }
    }
    Ok(Some(cells))
}
