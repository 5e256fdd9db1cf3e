ghost use Rattle.mc_plan.specs.Conds.{
  between_cond,
  compare_cond,
  cond_of,
  in_cond,
  is_by,
  is_column,
  like_cond,
  mirrored,
  node_cond,
  op_cond,
};
ghost use Rattle.mc_plan.specs.Constants.{HasText, HasTexts, cell};
ghost use Rattle.mc_range.specs.Condition.{IsCellOf, IsCondOf};
ghost use Rattle.mc_range.specs.declared.condition.Cond.TheVariants.{Between};
ghost use Rattle.mc_typing.specs.Parts.{node_parts};
ghost use Rattle.mc_typing.specs.declared.typed.Node.TheViews.{out-Node};
ghost use Rattle.std.specs.Prelude.{◌≡◌, All, IfOk, IfSome, option_and_then, option_map};

use crate::constants::{cell, cells};
use mc_ast::CmpOp;
use mc_base::NoMemory;
use mc_charset::{Charset, CollId};
use mc_range::{Cell, Cond};
use mc_typing::{Node, TypedExpr};
use std::alloc::Global;

/// Whether the expression is the column at a place.
fn is_column(e: &TypedExpr, column: u32) -> bool
    ensures { result ≡ is_column column e.now }
{
    match &e.node {
        Node::Column(place) => *place == column,
        _ => false,
    }
}

/// Whether a comparison is by the collation.
fn is_by(coll: CollId, used: Option<CollId>) -> bool
    ensures { result ≡ is_by coll used }
{
    match used {
        Some(id) => id.0 == coll.0,
        None => false,
    }
}

/// The column on the left of an operator and a constant on its right.
fn op_cond(op: CmpOp, it: Cell) -> Option<Cond>
    ensures is { result ≡ op_cond op it }
    ensures of_set { (set : _) → IsCellOf set it → IfSome result (IsCondOf set) }
{
    match op {
        CmpOp::Eq => Some(Cond::Eq(it)),
        CmpOp::Lt | CmpOp::Le => Some(Cond::AtMost(it)),
        CmpOp::Gt | CmpOp::Ge => Some(Cond::AtLeast(it)),
        CmpOp::NullEq | CmpOp::Ne => None,
    }
}

/// The operator that says the same where the sides are exchanged.
fn mirrored(op: CmpOp) -> CmpOp
    ensures { result ≡ mirrored op }
{
    match op {
        CmpOp::Lt => CmpOp::Gt,
        CmpOp::Le => CmpOp::Ge,
        CmpOp::Gt => CmpOp::Lt,
        CmpOp::Ge => CmpOp::Le,
        CmpOp::Eq | CmpOp::NullEq | CmpOp::Ne => op,
    }
}

/// The column on the left of an operator and an operand on its right.
fn with_constant(
    alloc: Global,
    set: Charset,
    op: CmpOp,
    y: &TypedExpr,
) -> Result<Option<Cond>, NoMemory>
    requires { HasText y.now }
    ensures is { IfOk result (λ cond. cond ≡ option_and_then (op_cond op) (cell set y.now)) }
    ensures of_set { IfOk result (λ cond. IfSome cond (IsCondOf set)) }
{
    match cell(alloc, set, y)? {
        Some(it) => Ok(op_cond(op, it)),
        None => Ok(None),
    }
}

/// The column on one side of an operator and a constant on the other one.
fn compare_cond(
    alloc: Global,
    set: Charset,
    column: u32,
    op: CmpOp,
    xs: &[TypedExpr],
) -> Result<Option<Cond>, NoMemory>
    requires { All HasText xs.now }
    ensures is { IfOk result (λ cond. cond ≡ compare_cond set column op xs.now) }
    ensures of_set { IfOk result (λ cond. IfSome cond (IsCondOf set)) }
{
    let [x, y] = xs else {
        return Ok(None);
    };
    if is_column(x, column) {
        return with_constant(alloc, set, op, y);
    }
    if is_column(y, column) {
        return with_constant(alloc, set, mirrored(op), x);
    }
    Ok(None)
}

/// The column in front of its pattern.
fn like_cond(
    alloc: Global,
    set: Charset,
    column: u32,
    escape: Option<u32>,
    xs: &[TypedExpr],
) -> Result<Option<Cond>, NoMemory>
    requires { All HasText xs.now }
    ensures is { IfOk result (λ cond. cond ≡ like_cond set column escape xs.now) }
    ensures of_set { IfOk result (λ cond. IfSome cond (IsCondOf set)) }
{
    let [x, y] = xs else {
        return Ok(None);
    };
    if !is_column(x, column) {
        return Ok(None);
    }
    match cell(alloc, set, y)? {
        Some(pattern) => Ok(Some(Cond::Like { pattern, escape })),
        None => Ok(None),
    }
}

/// The two ends of a condition.
fn ends(alloc: Global, set: Charset, low: Cell, z: &TypedExpr) -> Result<Option<Cond>, NoMemory>
    requires low { IsCellOf set low }
    requires high { HasText z.now }
    ensures is { IfOk result (λ cond. cond
        ≡ option_map (λ high. Between low high) (cell set z.now)) }
    ensures of_set { IfOk result (λ cond. IfSome cond (IsCondOf set)) }
{
    match cell(alloc, set, z)? {
        Some(high) => Ok(Some(Cond::Between(low, high))),
        None => Ok(None),
    }
}

/// The column in front of its two ends.
fn between_cond(
    alloc: Global,
    set: Charset,
    column: u32,
    xs: &[TypedExpr],
) -> Result<Option<Cond>, NoMemory>
    requires { All HasText xs.now }
    ensures is { IfOk result (λ cond. cond ≡ between_cond set column xs.now) }
    ensures of_set { IfOk result (λ cond. IfSome cond (IsCondOf set)) }
{
    let [x, y, z] = xs else {
        return Ok(None);
    };
    if !is_column(x, column) {
        return Ok(None);
    }
    match cell(alloc, set, y)? {
        Some(low) => ends(alloc, set, low, z),
        None => Ok(None),
    }
}

/// The column in front of its members.
fn in_cond(
    alloc: Global,
    set: Charset,
    column: u32,
    xs: &[TypedExpr],
) -> Result<Option<Cond>, NoMemory>
    requires { All HasText xs.now }
    ensures is { IfOk result (λ cond. cond ≡ in_cond set column xs.now) }
    ensures of_set { IfOk result (λ cond. IfSome cond (IsCondOf set)) }
{
    let Some((x, others)) = xs.split_first() else {
        return Ok(None);
    };
    if !is_column(x, column) {
        return Ok(None);
    }
    match cells(alloc, set, others)? {
        Some(members) => Ok(Some(Cond::In(members))),
        None => Ok(None),
    }
}

/// The condition that a node is whose comparison is by the collation.
fn node_cond(
    alloc: Global,
    node: &Node,
    column: u32,
    coll: CollId,
    set: Charset,
) -> Result<Option<Cond>, NoMemory>
    requires { All HasText (node_parts (out-Node node.now)) }
    ensures is { IfOk result (λ cond. cond ≡ node_cond set column coll (out-Node node.now)) }
    ensures of_set { IfOk result (λ cond. IfSome cond (IsCondOf set)) }
{
    match node {
        Node::Compare {
            op,
            coll: used,
            args,
        } if is_by(coll, *used) => { compare_cond(alloc, set, column, *op, args.as_slice()) }
        Node::Like {
            coll: used,
            args,
            escape,
            negated: false,
        } if is_by(coll, *used) => like_cond(alloc, set, column, *escape, args.as_slice()),
        Node::In {
            coll: used,
            args,
            negated: false,
        } if is_by(coll, *used) => in_cond(alloc, set, column, args.as_slice()),
        Node::Between {
            coll: used,
            args,
            negated: false,
        } if is_by(coll, *used) => between_cond(alloc, set, column, args.as_slice()),
        _ => Ok(None),
    }
}

/// The condition that an expression is on the column at a place, by the column's collation, whose
/// set is `set`: `=`, `<`, `<=`, `>`, `>=`, BETWEEN, IN or LIKE without NOT, by that collation, of
/// the column with string literals and NULLs, which may stand under one COLLATE. The column may be
/// either side of an operator and stands in front elsewhere. `<=>` and `<>` are no conditions. The
/// constants are converted to the set. MySQL 8.0 manual, 8.2.1.2.
#[tactic(auto, unfolding(crate::specs::Conds::cond_of))]
pub fn cond_of(
    alloc: Global,
    e: &TypedExpr,
    column: u32,
    coll: CollId,
    set: Charset,
) -> Result<Option<Cond>, NoMemory>
    requires { HasTexts e.now }
    ensures is { IfOk result (λ cond. cond ≡ cond_of set column coll e.now) }
    ensures of_set { IfOk result (λ cond. IfSome cond (IsCondOf set)) }
{
    node_cond(alloc, &e.node, column, coll, set)
}
