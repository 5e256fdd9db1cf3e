ghost use Rattle.mc_group.specs.Cells.{cell_of, cell_order, cells_of, cells_order, entry_order};
ghost use Rattle.mc_group.specs.Fronts.{fronts_first};
ghost use Rattle.mc_group.specs.Kinds.{IsInBook, IsKeyRow, IsOfKind};
ghost use Rattle.mc_values.specs.declared.value.Value.TheVariants as value;
ghost use Rattle.std.specs.List.{All};
ghost use Rattle.mc_group.specs.declared.cell.Cell.TheVariants as cell;
ghost use Rattle.std.specs.Prelude.{◌≡◌, IfOk, slice_index_or};

use crate::cell::{Cell, cell_of, cell_order};
use crate::column::Column;
use crate::kind::KeyKind;
use mc_base::{List, NoMemory};
use mc_order::Book;
use mc_values::Value;
use std::alloc::Global;
use std::cmp::Ordering;

/// A row's cells with their front, and its place among the rows.
#[derive(Drop)]
pub(crate) struct Entry {
    pub(crate) front: u128,
    pub(crate) cells: List<Cell>,
    pub(crate) place: u32,
}

/// What the value of a row at a place is sorted by.
fn cell_at<B: Book>(
    alloc: Global,
    book: &B,
    kind: KeyKind,
    row: &[Value],
    i: usize,
) -> Result<Cell, NoMemory>
    requires in_book { IsInBook (B.count book.now) kind }
    requires of_kind { IsOfKind (B.meaning book.now) kind (slice_index_or row.now i value.Null) }
    ensures { IfOk result (λ cell.
        cell ≡ cell_of (B.meaning book.now) kind (slice_index_or row.now i value.Null)) }
{
    match row.get(i) {
        Some(value) => cell_of(alloc, book, kind, value),
        None => Ok(Cell::Null),
    }
}

/// What a row is sorted by.

pub(crate) fn cells_of<B: Book>(
    alloc: Global,
    book: &B,
    kinds: &[KeyKind],
    row: &[Value],
) -> Result<List<Cell>, NoMemory>
    requires in_book { All (IsInBook (B.count book.now)) kinds.now }
    requires key_row { IsKeyRow (B.meaning book.now) kinds.now row.now }
    ensures { IfOk result (λ cells. cells ≡ cells_of (B.meaning book.now) kinds.now row.now) }
{
    let mut cells = List::new(alloc);
    for (i, kind) in kinds.iter().enumerate() {
        cells.push(cell_at(alloc, book, *kind, row, i)?)?;
    }
    Ok(cells)
}

/// The order of two rows' cells at a place, NULL where there is none.
fn order_at(column: &Column, one: &[Cell], other: &[Cell], i: usize) -> Ordering
    ensures { result ≡ cell_order column.now (slice_index_or one.now i cell.Null)
        (slice_index_or other.now i cell.Null) }
{
    let null = Cell::Null;
    cell_order(
        column,
        one.get(i).unwrap_or(&null),
        other.get(i).unwrap_or(&null),
    )
}

/// The order of two rows' cells: the first that differs decides.
#[tactic(auto, using(crate::proofs::Cells::cells_order_steps))]
fn cells_order(columns: &[Column], one: &[Cell], other: &[Cell]) -> Ordering
    ensures { result ≡ cells_order columns.now one.now other.now }
{
    for (i, column) in columns.iter().enumerate() {
        match order_at(column, one, other, i) {
            Ordering::Equal => {}
            differs => return differs,
        }
    }
    Ordering::Equal
}

/// The order of two entries: that of their cells, and of their places where those are equal.
fn entry_order(columns: &[Column], one: &Entry, other: &Entry) -> Ordering
    ensures { result ≡ entry_order columns.now one.now other.now }
{
    match cells_order(columns, one.cells.as_slice(), other.cells.as_slice()) {
        Ordering::Equal => one.place.cmp(&other.place),
        differs => differs,
    }
}

/// The order of two entries, by their fronts where those differ: that is all one where both have
/// the fronts of their cells.
pub(crate) fn fronts_first(columns: &[Column], one: &Entry, other: &Entry) -> Ordering
    ensures { result ≡ fronts_first columns.now one.now other.now }
{
    match one.front.cmp(&other.front) {
        Ordering::Equal => entry_order(columns, one, other),
        differs => differs,
    }
}
