ghost use Rattle.mc_exec.specs.Grouped.{value_kinds};
ghost use Rattle.mc_exec.specs.Ordered.{
  directions_of,
  kind_of,
  kinds_of,
  places_in_order,
};
ghost use Rattle.mc_group.specs.Kinds.{IsInBook, IsKeyRow};
ghost use Rattle.mc_group.specs.Order.{row_order};
ghost use Rattle.std.specs.List.{range_with_len};
ghost use Rattle.std.specs.Prelude.{
  ◌≡◌,
  [],
  All,
  IfOk,
  IsPermutation,
  OnOk,
  length,
};

use mc_base::{List, NoMemory};
use mc_group::{KeyKind, order_rows, place_law};
use mc_order::Book;
use mc_typing::{Ty, TypedExpr, TypedOrder};
use mc_values::Row;
use std::alloc::Global;

/// What values of a type are compared as.
pub(crate) fn kind_of(ty: Ty) -> KeyKind
    ensures { result ≡ kind_of ty }
{
    match ty {
        Ty::Str(operand) => KeyKind::Text(operand.collation),
        Ty::Int | Ty::Null => KeyKind::Int,
    }
}

/// Appends the kinds of expressions.
pub(crate) fn put_value_kinds(
    exprs: &[TypedExpr],
    kinds: &mut List<KeyKind>,
) -> Result<(), NoMemory>
    requires { kinds.old ≡ [] }
    ensures { OnOk result (kinds.new ≡ value_kinds exprs.now) }
{
    for e in exprs {
        kinds.push(kind_of(e.ty))?;
    }
    Ok(())
}

/// Appends the kinds of keys.
fn put_kinds(orders: &[TypedOrder], kinds: &mut List<KeyKind>) -> Result<(), NoMemory>
    requires { kinds.old ≡ [] }
    ensures { OnOk result (kinds.new ≡ kinds_of orders.now) }
{
    for key in orders {
        kinds.push(kind_of(key.expr.ty))?;
    }
    Ok(())
}

/// Appends the directions of keys.
fn put_directions(orders: &[TypedOrder], directions: &mut List<bool>) -> Result<(), NoMemory>
    requires { directions.old ≡ [] }
    ensures { OnOk result (directions.new ≡ directions_of orders.now) }
{
    for key in orders {
        directions.push(key.desc)?;
    }
    Ok(())
}

/// The places of rows in the order of their keys, sorted.
fn sorted_places<B: Book>(
    alloc: Global,
    orders: &[TypedOrder],
    keys: &List<Row>,
    book: &B,
) -> Result<List<u32>, NoMemory>
    requires in_book { All (IsInBook (B.count book.now)) (kinds_of orders.now) }
    requires key_rows { All (IsKeyRow (B.meaning book.now) (kinds_of orders.now)) keys.now }
    ensures are { IfOk result (λ places. places ≡ places_in_order
        (row_order (B.meaning book.now) (kinds_of orders.now) (directions_of orders.now))
        keys.now) }
    ensures all { IfOk result (IsPermutation (range_with_len 0 (length keys.now))) }
{
    place_law();
    let mut kinds = List::new(alloc);
    put_kinds(orders, &mut kinds)?;
    let mut directions = List::new(alloc);
    put_directions(orders, &mut directions)?;
    order_rows(alloc, keys, &kinds, &directions, book)
}

/// Appends so many places to a list without any.
fn put_places(count: u32, places: &mut List<u32>) -> Result<(), NoMemory>
    requires { places.old ≡ [] }
    ensures { OnOk result (places.new ≡ range_with_len 0 count) }
{
    for place in 0..count {
        places.push(place)?;
    }
    Ok(())
}

/// The places of rows that nothing tells apart.
fn every_place(alloc: Global, count: usize) -> Result<List<u32>, NoMemory>
    ensures { IfOk result (λ places. places ≡ range_with_len 0 count) }
{
    match u32::try_from(count) {
        Ok(count) => {
            let mut places = List::new(alloc);
            put_places(count, &mut places)?;
            Ok(places)
        }
        Err(_) => Err(NoMemory),
    }
}

/// The places of rows in the order of their keys. Without keys they stay as they are, and nothing
/// is sorted.
pub(crate) fn ordered_places<B: Book>(
    alloc: Global,
    orders: &[TypedOrder],
    keys: &List<Row>,
    book: &B,
) -> Result<List<u32>, NoMemory>
    requires in_book { All (IsInBook (B.count book.now)) (kinds_of orders.now) }
    requires key_rows { All (IsKeyRow (B.meaning book.now) (kinds_of orders.now)) keys.now }
    ensures are { IfOk result (λ places. places ≡ places_in_order
        (row_order (B.meaning book.now) (kinds_of orders.now) (directions_of orders.now))
        keys.now) }
    ensures all { IfOk result (IsPermutation (range_with_len 0 (length keys.now))) }
{
    place_law();
    if orders.is_empty() {
        every_place(alloc, keys.len())
    } else {
        sorted_places(alloc, orders, keys, book)
    }
}
