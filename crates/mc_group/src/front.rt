ghost use Rattle.mc_group.specs.Fronts.{ascending_front, cell_front, row_front};
ghost use Rattle.std.specs.Prelude.{◌≡◌};

use crate::cell::Cell;
use crate::column::Column;
use mc_key::front_of;

/// The front of a cell, ascending: that of its weights, and 0 where it is no text.
fn ascending_front(column: &Column, cell: &Cell) -> u128
    ensures { result ≡ ascending_front column.now cell.now }
{
    match cell {
        Cell::Null => 0,
        Cell::Number(_) => 0,
        Cell::Weights(weights) => front_of(weights.as_slice(), column.pad, column.space),
    }
}

/// The front of a cell, turned round where its column descends.
fn cell_front(column: &Column, cell: &Cell) -> u128
    ensures { result ≡ cell_front column.now cell.now }
{
    let front = ascending_front(column, cell);
    if column.desc {
        u128::MAX - front
    } else {
        front
    }
}

/// The front of a row's cells: that of the first.
pub(crate) fn row_front(columns: &[Column], cells: &[Cell]) -> u128
    ensures { result ≡ row_front columns.now cells.now }
{
    match columns {
        [column, ..] => match cells {
            [cell, ..] => cell_front(column, cell),
            [] => cell_front(column, &Cell::Null),
        },
        [] => 0,
    }
}
