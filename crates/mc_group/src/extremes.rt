ghost use Rattle.mc_group.specs.Extremes.{IsFirstPlace, absence, stands_before};
ghost use Rattle.mc_group.specs.Kinds.{IsInBook, IsOfKind};
ghost use Rattle.mc_group.specs.Order.{directed, value_order};
ghost use Rattle.mc_group.specs.Sums.{is_null};
ghost use Rattle.mc_values.specs.declared.value.Value.TheVariants as value;
ghost use Rattle.std.specs.List.{All, IsFirstBest};
ghost use Rattle.std.specs.Ordering.{flip_args};
ghost use Rattle.std.specs.Prelude.{◌≡◌, ◌<◌, ◌≤◌, ◌^◌, None, Some, if◌then◌else◌, length};
ghost use Rattle.std.specs.Prelude.{slice_index_or};

use crate::kind::KeyKind;
use crate::values::{is_null, value_order};
use mc_base::List;
use mc_order::{Book, order_laws};
use mc_values::Value;
use std::cmp::Ordering;

/// NULL stands behind all other values.
fn absence(value: &Value) -> u8
    ensures { result ≡ absence value.now }
{
    match value {
        Value::Null => 1,
        Value::Int(_) => 0,
        Value::Str { .. } => 0,
    }
}

/// The order of two values of a kind in a direction.
fn directed<B: Book>(book: &B, kind: KeyKind, desc: bool, one: &Value, other: &Value) -> Ordering
    requires in_book { IsInBook (B.count book.now) kind }
    requires one { IsOfKind (B.meaning book.now) kind one.now }
    requires other { IsOfKind (B.meaning book.now) kind other.now }
    ensures { result
        ≡ directed desc (value_order (B.meaning book.now) kind) one.now other.now }
{
    if desc {
        value_order(book, kind, other, one)
    } else {
        value_order(book, kind, one, other)
    }
}

/// Whether a value stands before another one, NULL behind all.
fn stands_before<B: Book>(book: &B, kind: KeyKind, desc: bool, one: &Value, other: &Value) -> bool
    requires in_book { IsInBook (B.count book.now) kind }
    requires one { IsOfKind (B.meaning book.now) kind one.now }
    requires other { IsOfKind (B.meaning book.now) kind other.now }
    ensures { let order = directed desc (value_order (B.meaning book.now) kind) in
        result ≡ stands_before order one.now other.now }
{
    let order = directed(book, kind, desc, one, other);
    absence(one).cmp(&absence(other)).then(order).is_lt()
}

/// The place of the first value that no other one stands before, among some.
fn best_place<B: Book>(values: &[Value], kind: KeyKind, desc: bool, book: &B) -> usize
    requires in_book { IsInBook (B.count book.now) kind }
    requires of_kind { All (IsOfKind (B.meaning book.now) kind) values.now }
    requires some { 0 < length values.now }
    ensures { let order = directed desc (value_order (B.meaning book.now) kind) in
        IsFirstBest (stands_before order) values.now (length values.now) result }
{
    order_laws();
    let mut best = 0;
    for i in 1..values.len() {
        if stands_before(book, kind, desc, &values[i], &values[best]) {
            best = i;
        }
    }
    best
}

/// The place, if the value there is not NULL.
fn present_place(values: &[Value], place: usize) -> Option<u32>
    requires within { place < length values.now }
    requires few { length values.now ≤ 2 ^ 32 }
    ensures { result
        ≡ if is_null (slice_index_or values.now place value.Null) then None else Some place }
{
    if is_null(&values[place]) {
        None
    } else {
        Some(place as u32)
    }
}

/// The place of the first value that no other one stands before; None where all are NULL.
fn first_place<B: Book>(values: &[Value], kind: KeyKind, desc: bool, book: &B) -> Option<u32>
    requires in_book { IsInBook (B.count book.now) kind }
    requires of_kind { All (IsOfKind (B.meaning book.now) kind) values.now }
    requires few { length values.now ≤ 2 ^ 32 }
    ensures { let order = directed desc (value_order (B.meaning book.now) kind) in
        IsFirstPlace order values.now result }
{
    if values.is_empty() {
        return None;
    }
    let best = best_place(values, kind, desc, book);
    present_place(values, best)
}

/// The place of the first least value, NULL aside; None exactly where all are NULL. The places of
/// at most 2^32 values fit 32 bits.
pub fn least<B: Book>(values: &List<Value>, kind: KeyKind, book: &B) -> Option<u32>
    requires in_book { IsInBook (B.count book.now) kind }
    requires of_kind { All (IsOfKind (B.meaning book.now) kind) values.now }
    requires few { length values.now ≤ 2 ^ 32 }
    ensures { IsFirstPlace (value_order (B.meaning book.now) kind) values.now result }
{
    first_place(values.as_slice(), kind, false, book)
}

/// The place of the first greatest value, NULL aside; None exactly where all are NULL. The places
/// of at most 2^32 values fit 32 bits.
pub fn greatest<B: Book>(values: &List<Value>, kind: KeyKind, book: &B) -> Option<u32>
    requires in_book { IsInBook (B.count book.now) kind }
    requires of_kind { All (IsOfKind (B.meaning book.now) kind) values.now }
    requires few { length values.now ≤ 2 ^ 32 }
    ensures { IsFirstPlace (flip_args (value_order (B.meaning book.now) kind)) values.now result }
{
    first_place(values.as_slice(), kind, true, book)
}
