ghost use Rattle.mc_catalog.specs.Lawful.{IsLawful};
ghost use Rattle.mc_charset.specs.Chars.{chars};
ghost use Rattle.mc_charset.specs.declared.charset.Charset.TheVariants.{Utf8mb4};
ghost use Rattle.mc_typing.specs.Names.{arith_name, cmp_name};
ghost use Rattle.mc_typing.specs.Operands.{AreTyped};
ghost use Rattle.mc_typing.specs.Operators.{
  compared,
  escape_in,
  escape_of,
  like,
  number_expr,
  of_numbers,
  of_one_number,
};
ghost use Rattle.mc_typing.specs.Wanted.{IsWanted};
ghost use Rattle.mc_typing.specs.declared.typed.Node.TheVariants as node;
ghost use Rattle.std.specs.Prelude.{◌≡◌, Ok, codes};

use crate::fault::{TypeFault, refused};
use crate::messages::wrong_argument;
use crate::names::{arith_name, cmp_name};
use crate::operators::{compared_by, comparison, need_number, need_numbers, number_expr};
use crate::typed::{Node, TypedExpr};
use mc_ast::{ArithOp, CmpOp};
use mc_base::{Boxed, List, Text};
use mc_catalog::Catalog;
use mc_charset::{CharAt, Charset, next_char};
use std::alloc::Global;

/// The escape where none is given.
const BACKSLASH: u32 = 0x5C;

pub(crate) fn or(alloc: Global, xs: List<TypedExpr>) -> Result<TypedExpr, TypeFault>
    ensures { IsWanted result (of_numbers (codes "or") (node.Or xs) xs) }
{
    need_numbers(alloc, b"or", xs.as_slice())?;
    Ok(number_expr(Node::Or(xs)))
}

pub(crate) fn and(alloc: Global, xs: List<TypedExpr>) -> Result<TypedExpr, TypeFault>
    ensures { IsWanted result (of_numbers (codes "and") (node.And xs) xs) }
{
    need_numbers(alloc, b"and", xs.as_slice())?;
    Ok(number_expr(Node::And(xs)))
}

pub(crate) fn xor(alloc: Global, xs: List<TypedExpr>) -> Result<TypedExpr, TypeFault>
    ensures { IsWanted result (of_numbers (codes "xor") (node.Xor xs) xs) }
{
    need_numbers(alloc, b"xor", xs.as_slice())?;
    Ok(number_expr(Node::Xor(xs)))
}

pub(crate) fn not(alloc: Global, x: TypedExpr) -> Result<TypedExpr, TypeFault>
    ensures { IsWanted result (of_one_number (codes "not") (node.Not x) x) }
{
    need_number(alloc, b"not", &x)?;
    Ok(number_expr(Node::Not(Boxed::new(alloc, x)?)))
}

pub(crate) fn neg(alloc: Global, x: TypedExpr) -> Result<TypedExpr, TypeFault>
    ensures { IsWanted result (of_one_number (codes "-") (node.Neg x) x) }
{
    need_number(alloc, b"-", &x)?;
    Ok(number_expr(Node::Neg(Boxed::new(alloc, x)?)))
}

pub(crate) fn arith(alloc: Global, op: ArithOp, xs: List<TypedExpr>) -> Result<TypedExpr, TypeFault>
    ensures { IsWanted result (of_numbers (arith_name op) (node.Arith op xs) xs) }
{
    need_numbers(alloc, arith_name(op), xs.as_slice())?;
    Ok(number_expr(Node::Arith { op, args: xs }))
}

pub(crate) fn is_null(alloc: Global, negated: bool, x: TypedExpr) -> Result<TypedExpr, TypeFault>
    ensures { IsWanted result (Ok (number_expr (node.IsNull x negated))) }
{
    Ok(number_expr(Node::IsNull {
        expr: Boxed::new(alloc, x)?,
        negated,
    }))
}

pub(crate) fn compare(
    alloc: Global,
    c: &Catalog,
    op: CmpOp,
    xs: List<TypedExpr>,
) -> Result<TypedExpr, TypeFault>
    requires lawful { IsLawful c.now }
    requires typed { AreTyped c.now xs }
    ensures { IsWanted result (compared c.now (cmp_name op) (λ coll. node.Compare op coll xs) xs) }
{
    let coll = comparison(alloc, c, cmp_name(op), xs.as_slice())?;
    Ok(number_expr(Node::Compare { op, coll, args: xs }))
}

pub(crate) fn is_in(
    alloc: Global,
    c: &Catalog,
    negated: bool,
    xs: List<TypedExpr>,
) -> Result<TypedExpr, TypeFault>
    requires lawful { IsLawful c.now }
    requires typed { AreTyped c.now xs }
    ensures { IsWanted result (compared c.now (codes "in") (λ coll. node.In coll xs negated) xs) }
{
    let coll = comparison(alloc, c, b"in", xs.as_slice())?;
    Ok(number_expr(Node::In {
        coll,
        args: xs,
        negated,
    }))
}

pub(crate) fn between(
    alloc: Global,
    c: &Catalog,
    negated: bool,
    xs: List<TypedExpr>,
) -> Result<TypedExpr, TypeFault>
    requires lawful { IsLawful c.now }
    requires typed { AreTyped c.now xs }
    ensures { IsWanted result (compared c.now (codes "between")
        (λ coll. node.Between coll xs negated) xs) }
{
    let coll = comparison(alloc, c, b"between", xs.as_slice())?;
    Ok(number_expr(Node::Between {
        coll,
        args: xs,
        negated,
    }))
}

/// The escape of LIKE of a text of the script.
fn escape_in(alloc: Global, text: &[u8]) -> Result<Option<u32>, TypeFault>
    ensures { IsWanted result (escape_in (chars Utf8mb4 text.now)) }
{
    let CharAt::Char { code, len } = next_char(Charset::Utf8mb4, text) else {
        return Ok(None);
    };
    match next_char(Charset::Utf8mb4, &text[len..]) {
        CharAt::Char { .. } => Err(refused(wrong_argument(alloc, b"escape"))),
        CharAt::End | CharAt::Bad => Ok(Some(code)),
    }
}

/// The escape of LIKE.
fn escape_of(alloc: Global, escape: &Option<Text>) -> Result<Option<u32>, TypeFault>
    ensures { IsWanted result (escape_of escape.now) }
{
    match escape {
        Some(text) => escape_in(alloc, text.as_slice()),
        None => Ok(Some(BACKSLASH)),
    }
}

pub(crate) fn like(
    alloc: Global,
    c: &Catalog,
    escape: &Option<Text>,
    negated: bool,
    xs: List<TypedExpr>,
) -> Result<TypedExpr, TypeFault>
    requires lawful { IsLawful c.now }
    requires typed { AreTyped c.now xs }
    ensures { IsWanted result (like c.now escape.now negated xs) }
{
    let escape = escape_of(alloc, escape)?;
    let coll = compared_by(alloc, c, b"like", xs.as_slice())?;
    Ok(number_expr(Node::Like {
        coll: Some(coll),
        args: xs,
        escape,
        negated,
    }))
}
