ghost use Rattle.mc_group.specs.Kinds.{IsInBook, IsOfKind};
ghost use Rattle.mc_group.specs.Order.{presence, value_order};
ghost use Rattle.mc_group.specs.Sums.{is_null};
ghost use Rattle.mc_group.specs.declared.kind.KeyKind.TheVariants as kind;
ghost use Rattle.std.specs.Prelude.{◌≡◌};

use crate::kind::KeyKind;
use mc_charset::CollId;
use mc_order::{Book, Collation};
use mc_values::Value;
use std::cmp::Ordering;

/// Whether it is NULL.
pub(crate) fn is_null(value: &Value) -> bool
    ensures { result ≡ is_null value.now }
{
    match value {
        Value::Null => true,
        Value::Int(_) => false,
        Value::Str { .. } => false,
    }
}

/// NULL stands before all other values.
fn presence(value: &Value) -> u8
    ensures { result ≡ presence value.now }
{
    match value {
        Value::Null => 0,
        Value::Int(_) => 1,
        Value::Str { .. } => 1,
    }
}

/// The order of two numbers, NULL first.
#[tactic(auto, using(crate::proofs::Cells::no_weights))]
fn number_order<B: Book>(book: &B, one: &Value, other: &Value) -> Ordering
    requires one { IsOfKind (B.meaning book.now) kind.Int one.now }
    requires other { IsOfKind (B.meaning book.now) kind.Int other.now }
    ensures { result ≡ value_order (B.meaning book.now) kind.Int one.now other.now }
{
    match (one, other) {
        (Value::Int(x), Value::Int(y)) => x.cmp(y),
        _ => presence(one).cmp(&presence(other)),
    }
}

/// The order of two texts by a collation, NULL first.
#[tactic(auto, using(crate::proofs::Cells::no_weights))]
fn text_order<B: Book>(book: &B, id: CollId, one: &Value, other: &Value) -> Ordering
    requires in_book { IsInBook (B.count book.now) (kind.Text id) }
    requires one { IsOfKind (B.meaning book.now) (kind.Text id) one.now }
    requires other { IsOfKind (B.meaning book.now) (kind.Text id) other.now }
    ensures { result ≡ value_order (B.meaning book.now) (kind.Text id) one.now other.now }
{
    match (one, other) {
        (Value::Str { text, .. }, Value::Str { text: more, .. }) => {
            book.by_id(id).compare(text.as_slice(), more.as_slice())
        }
        _ => presence(one).cmp(&presence(other)),
    }
}

/// The order of two values of a kind.
pub(crate) fn value_order<B: Book>(book: &B, kind: KeyKind, one: &Value, other: &Value) -> Ordering
    requires in_book { IsInBook (B.count book.now) kind }
    requires one { IsOfKind (B.meaning book.now) kind one.now }
    requires other { IsOfKind (B.meaning book.now) kind other.now }
    ensures { result ≡ value_order (B.meaning book.now) kind one.now other.now }
{
    match kind {
        KeyKind::Int => number_order(book, one, other),
        KeyKind::Text(id) => text_order(book, id, one, other),
    }
}
