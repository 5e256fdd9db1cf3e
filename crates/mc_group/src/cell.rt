ghost use Rattle.mc_charset.specs.Chars.{IsWellFormed, chars};
ghost use Rattle.mc_group.specs.Cells.{ascending, cell_of, cell_order, rank};
ghost use Rattle.mc_group.specs.Kinds.{IsInBook, IsOfKind};
ghost use Rattle.mc_order.specs.Meaning.{flat_list};
ghost use Rattle.std.specs.Prelude.{◌≡◌, IfOk};

use crate::column::Column;
use crate::kind::KeyKind;
use mc_base::{NoMemory, Weights};
use mc_order::{Book, Collation, compare_lists};
use mc_values::Value;
use std::alloc::Global;
use std::cmp::Ordering;

/// What a value is sorted by.
#[derive(Drop)]
pub(crate) enum Cell {
    /// NULL.
    Null,
    /// A whole number.
    Number(i64),
    /// The weights of a text.
    Weights(Weights),
}

/// The weights of a text.
fn weights_of<C: Collation>(alloc: Global, collation: &C, text: &[u8]) -> Result<Weights, NoMemory>
    requires { IsWellFormed (C.meaning collation.now).charset text.now }
    ensures { let m = C.meaning collation.now in
        IfOk result (λ weights. weights ≡ flat_list m (chars m.charset text.now)) }
{
    let mut weights = Weights::new(alloc);
    collation.put_list(text, None, &mut weights)?;
    Ok(weights)
}

/// What a value of a kind is sorted by.
pub(crate) fn cell_of<B: Book>(
    alloc: Global,
    book: &B,
    kind: KeyKind,
    value: &Value,
) -> Result<Cell, NoMemory>
    requires in_book { IsInBook (B.count book.now) kind }
    requires of_kind { IsOfKind (B.meaning book.now) kind value.now }
    ensures { IfOk result (λ cell. cell ≡ cell_of (B.meaning book.now) kind value.now) }
{
    match (kind, value) {
        (_, Value::Null) => Ok(Cell::Null),
        (KeyKind::Int, Value::Int(number)) => Ok(Cell::Number(*number)),
        (KeyKind::Int, Value::Str { .. }) => Ok(Cell::Number(0)),
        (KeyKind::Text(_), Value::Int(_)) => Ok(Cell::Weights(Weights::new(alloc))),
        (KeyKind::Text(id), Value::Str { text, .. }) => match weights_of(
            alloc,
            book.by_id(id),
            text.as_slice(),
        ) {
            Ok(weights) => Ok(Cell::Weights(weights)),
            Err(error) => Err(error),
        },
    }
}

/// Where NULL, numbers and texts stand among each other.
fn rank(cell: &Cell) -> u8
    ensures { result ≡ rank cell.now }
{
    match cell {
        Cell::Null => 0,
        Cell::Number(_) => 1,
        Cell::Weights(_) => 2,
    }
}

/// The order of two cells of a column, ascending.
#[tactic(auto, using(crate::proofs::Cells::ascending_steps))]
fn ascending(column: &Column, one: &Cell, other: &Cell) -> Ordering
    ensures { result ≡ ascending column.now one.now other.now }
{
    match (one, other) {
        (Cell::Number(x), Cell::Number(y)) => x.cmp(y),
        (Cell::Weights(v), Cell::Weights(w)) => {
            compare_lists(v.as_slice(), w.as_slice(), column.pad, column.space)
        }
        _ => rank(one).cmp(&rank(other)),
    }
}

/// The order of two cells of a column.
pub(crate) fn cell_order(column: &Column, one: &Cell, other: &Cell) -> Ordering
    ensures { result ≡ cell_order column.now one.now other.now }
{
    if column.desc {
        ascending(column, other, one)
    } else {
        ascending(column, one, other)
    }
}
