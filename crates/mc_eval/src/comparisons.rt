ghost use Rattle.mc_ast.specs.declared.operators.CmpOp.TheVariants.{NullEq};
ghost use Rattle.mc_charset.specs.Chars.{IsWellFormed};
ghost use Rattle.mc_eval.specs.Comparisons.{
  compared,
  holds,
  text_order,
  text_order_by,
  usual,
  value_order,
};
ghost use Rattle.mc_eval.specs.Fit.{is_in_book};
ghost use Rattle.mc_eval.specs.Held.{HoldsKept, TellsHeld};
ghost use Rattle.mc_eval.specs.Outcomes.{GivesKept, Outcome, Tells, of_two};
ghost use Rattle.mc_eval.specs.Texts.{is_null};
ghost use Rattle.mc_eval.specs.Truths.{told};
ghost use Rattle.mc_values.specs.Values.{IsTextOfSet};
ghost use Rattle.mc_values.specs.declared.value.Value.TheVariants as value;
ghost use Rattle.std.specs.Prelude.{◌≡◌, ◌<◌, IfOk, IsTrue};

use crate::fault::EvalFault;
use crate::held::Held;
use crate::texts::in_set;
use crate::truth::Truth;
use mc_ast::CmpOp;
use mc_base::{NoMemory, Text};
use mc_charset::{Charset, CollId};
use mc_order::{Book, Collation};
use mc_values::Value;
use std::alloc::Global;
use std::cmp::Ordering;

/// The order of two texts by a collation, in its set.
pub(crate) fn text_order<B: Book>(
    alloc: Global,
    book: &B,
    id: CollId,
    one_set: Charset,
    one: &Text,
    other_set: Charset,
    other: &Text,
) -> Result<Ordering, NoMemory>
    requires in_book { id.0 < B.count book.now }
    requires one { IsWellFormed one_set one.now }
    requires other { IsWellFormed other_set other.now }
    ensures { IfOk result (λ order. order ≡ text_order (B.meaning book.now id.0)
        (value.Str one_set one.now) (value.Str other_set other.now)) }
{
    let collation = book.by_id(id);
    let set = collation.charset();
    let one = in_set(alloc, set, one_set, one)?;
    let other = in_set(alloc, set, other_set, other)?;
    Ok(collation.compare(one.get().as_slice(), other.get().as_slice()))
}

/// The order of two texts, where they are compared by a collation.
fn text_order_by<B: Book>(
    alloc: Global,
    book: &B,
    coll: Option<CollId>,
    one_set: Charset,
    one: &Text,
    other_set: Charset,
    other: &Text,
) -> Result<Option<Ordering>, NoMemory>
    requires in_book { IsTrue (is_in_book (B.count book.now) coll) }
    requires one { IsWellFormed one_set one.now }
    requires other { IsWellFormed other_set other.now }
    ensures { IfOk result (λ order. order ≡ text_order_by (B.meaning book.now) coll
        (value.Str one_set one.now) (value.Str other_set other.now)) }
{
    match coll {
        None => Ok(None),
        Some(id) => Ok(Some(text_order(alloc, book, id, one_set, one, other_set, other)?)),
    }
}

/// The order of two numbers or two texts; none where a side is NULL.
fn value_order<B: Book>(
    alloc: Global,
    book: &B,
    coll: Option<CollId>,
    one: &Value,
    other: &Value,
) -> Result<Option<Ordering>, NoMemory>
    requires in_book { IsTrue (is_in_book (B.count book.now) coll) }
    requires one { IsTextOfSet one.now }
    requires other { IsTextOfSet other.now }
    ensures { IfOk result (λ order.
        order ≡ value_order (B.meaning book.now) coll one.now other.now) }
{
    match (one, other) {
        (Value::Int(x), Value::Int(y)) => Ok(Some(x.cmp(y))),
        (
            Value::Str { charset, text },
            Value::Str {
                charset: set,
                text: more,
            },
        ) => text_order_by(alloc, book, coll, *charset, text, *set, more),
        _ => Ok(None),
    }
}

/// Whether it is NULL.
pub(crate) fn is_null(value: &Value) -> bool
    ensures { result ≡ is_null value.now }
{
    matches!(value, Value::Null)
}

/// Whether a comparison holds of sides in this order.
pub(crate) fn holds(op: CmpOp, order: Ordering) -> bool
    ensures { result ≡ holds op order }
{
    match op {
        CmpOp::Eq | CmpOp::NullEq => order.is_eq(),
        CmpOp::Ne => order.is_ne(),
        CmpOp::Lt => order.is_lt(),
        CmpOp::Le => order.is_le(),
        CmpOp::Gt => order.is_gt(),
        CmpOp::Ge => order.is_ge(),
    }
}

/// `<=>`.
fn null_safe<B: Book>(
    alloc: Global,
    book: &B,
    coll: Option<CollId>,
    one: &Value,
    other: &Value,
) -> Result<Truth, NoMemory>
    requires in_book { IsTrue (is_in_book (B.count book.now) coll) }
    requires one { IsTextOfSet one.now }
    requires other { IsTextOfSet other.now }
    ensures { IfOk result (λ it.
        it ≡ compared (B.meaning book.now) coll NullEq one.now other.now) }
{
    if is_null(one) && is_null(other) {
        return Ok(Truth::Yes);
    }
    match value_order(alloc, book, coll, one, other)? {
        Some(order) => Ok(Truth::known(order.is_eq())),
        None => Ok(Truth::No),
    }
}

/// A comparison that is NULL where a side is.
fn usual<B: Book>(
    alloc: Global,
    book: &B,
    coll: Option<CollId>,
    op: CmpOp,
    one: &Value,
    other: &Value,
) -> Result<Truth, NoMemory>
    requires in_book { IsTrue (is_in_book (B.count book.now) coll) }
    requires one { IsTextOfSet one.now }
    requires other { IsTextOfSet other.now }
    ensures { IfOk result (λ it.
        it ≡ usual (B.meaning book.now) coll op one.now other.now) }
{
    match value_order(alloc, book, coll, one, other)? {
        Some(order) => Ok(Truth::known(holds(op, order))),
        None => Ok(Truth::Unknown),
    }
}

/// A comparison of two values.
pub(crate) fn compared<B: Book>(
    alloc: Global,
    book: &B,
    coll: Option<CollId>,
    op: CmpOp,
    one: &Value,
    other: &Value,
) -> Result<Truth, NoMemory>
    requires in_book { IsTrue (is_in_book (B.count book.now) coll) }
    requires one { IsTextOfSet one.now }
    requires other { IsTextOfSet other.now }
    ensures { IfOk result (λ it.
        it ≡ compared (B.meaning book.now) coll op one.now other.now) }
{
    match op {
        CmpOp::NullEq => null_safe(alloc, book, coll, one, other),
        _ => usual(alloc, book, coll, op, one, other),
    }
}

/// A comparison of what came of two operands.
pub(crate) fn comparison<B: Book>(
    alloc: Global,
    book: &B,
    coll: Option<CollId>,
    op: CmpOp,
    one: Result<Held<'_>, EvalFault>,
    other: Result<Held<'_>, EvalFault>,
) -> Result<Value, EvalFault>
    requires in_book { IsTrue (is_in_book (B.count book.now) coll) }
    requires one { HoldsKept one }
    requires other { HoldsKept other }
    ensures told { (x y : Outcome) → TellsHeld x one.entry → TellsHeld y other.entry →
        Tells (of_two (λ a b. told (compared (B.meaning book.now) coll op a b)) x y) result }
    ensures kept { GivesKept result }
{
    match one {
        Ok(one) => match other {
            Ok(other) => compared(alloc, book, coll, op, one.get(), other.get())?.told(),
            Err(fault) => Err(fault),
        },
        Err(fault) => Err(fault),
    }
}
