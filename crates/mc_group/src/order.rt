ghost use Rattle.mc_group.specs.Cells.{entry_order};
ghost use Rattle.mc_group.specs.Fronts.{AreFronted, entry_of};
ghost use Rattle.mc_group.specs.Kinds.{IsInBook, IsKeyRow};
ghost use Rattle.mc_group.specs.Order.{AreSorted, row_order};
ghost use Rattle.std.specs.List.{All, range_with_len};
ghost use Rattle.std.specs.List.Sorted.{IsPermutation, IsSorted};
ghost use Rattle.std.specs.Prelude.{◌≡◌, ◌<◌, IfOk, length, map};

use crate::column::{Column, columns_of};
use crate::entry::{Entry, cells_of, fronts_first};
use crate::front::row_front;
use crate::kind::KeyKind;
use mc_base::{List, NoMemory};
use mc_key::front_law;
use mc_order::{Book, order_laws};
use mc_values::Row;
use std::alloc::Global;

/// The place as a number of 32 bits. Where there are more rows, memory would not hold their keys.
pub(crate) fn place_at(i: usize) -> Result<u32, NoMemory>
    ensures { IfOk result (λ place. place ≡ i) }
{
    match u32::try_from(i) {
        Ok(place) => Ok(place),
        Err(_) => Err(NoMemory),
    }
}

/// What is sorted for the row at a place.
fn entry_of<B: Book>(
    alloc: Global,
    columns: &[Column],
    book: &B,
    kinds: &[KeyKind],
    keys: &[Row],
    i: usize,
) -> Result<Entry, NoMemory>
    requires in_book { All (IsInBook (B.count book.now)) kinds.now }
    requires key_rows { All (IsKeyRow (B.meaning book.now) kinds.now) keys.now }
    requires within { i < length keys.now }
    ensures { IfOk result
        (λ entry. entry ≡ entry_of columns.now (B.meaning book.now) kinds.now keys.now i) }
{
    let place = place_at(i)?;
    let cells = cells_of(alloc, book, kinds, keys[i].as_slice())?;
    Ok(Entry {
        front: row_front(columns, cells.as_slice()),
        cells,
        place,
    })
}

/// What is sorted for each row.
fn entries_of<B: Book>(
    alloc: Global,
    columns: &[Column],
    book: &B,
    kinds: &[KeyKind],
    keys: &[Row],
) -> Result<Vec<Entry>, NoMemory>
    requires in_book { All (IsInBook (B.count book.now)) kinds.now }
    requires key_rows { All (IsKeyRow (B.meaning book.now) kinds.now) keys.now }
    ensures { let entry = entry_of columns.now (B.meaning book.now) kinds.now keys.now in
        IfOk result
        (λ entries. entries.items ≡ map entry (range_with_len 0 (length keys.now))) }
{
    let mut entries = Vec::new(alloc);
    entries.reserve(keys.len())?;
    for i in 0..keys.len() {
        entries.push(entry_of(alloc, columns, book, kinds, keys, i)?)?;
    }
    Ok(entries)
}

/// Sorts entries by their cells, and by their places where those are equal.
fn sort_entries(columns: &[Column], entries: &mut Vec<Entry>)
    requires fronted { AreFronted columns.now entries.old.items }
    ensures permutation { IsPermutation entries.old.items entries.new.items }
    ensures sorted { IsSorted (entry_order columns.now) entries.new.items }
{
    order_laws();
    front_law();
    entries.sort_unstable_by(|one, other| fronts_first(columns, one, other));
}

/// The places of entries.
fn places_of(alloc: Global, entries: &[Entry]) -> Result<List<u32>, NoMemory>
    ensures { IfOk result (λ places. places ≡ map (λ entry. entry.place) entries.now) }
{
    let mut places = List::new(alloc);
    places.reserve(entries.len())?;
    for entry in entries {
        places.push(entry.place)?;
    }
    Ok(places)
}

/// The places of the rows in the order of their keys.
fn sorted_places<B: Book>(
    alloc: Global,
    book: &B,
    keys: &[Row],
    kinds: &[KeyKind],
    desc: &[bool],
) -> Result<List<u32>, NoMemory>
    requires in_book { All (IsInBook (B.count book.now)) kinds.now }
    requires key_rows { All (IsKeyRow (B.meaning book.now) kinds.now) keys.now }
    ensures { IfOk result
        (λ places. AreSorted (row_order (B.meaning book.now) kinds.now desc.now) keys.now places) }
{
    order_laws();
    let columns = columns_of(alloc, book, kinds, desc)?;
    let mut entries = entries_of(alloc, columns.as_slice(), book, kinds, keys)?;
    sort_entries(columns.as_slice(), &mut entries);
    let places = places_of(alloc, entries.as_slice())?;
    Ok(places)
}

/// The places of the rows in the order of their keys, from 0. The first value that differs decides,
/// descending where `desc` says so; NULL is first ascending and last descending; rows with equal
/// keys stay in the given order.
pub fn order_rows<B: Book>(
    alloc: Global,
    keys: &List<Row>,
    kinds: &List<KeyKind>,
    desc: &List<bool>,
    book: &B,
) -> Result<List<u32>, NoMemory>
    requires in_book { All (IsInBook (B.count book.now)) kinds.now }
    requires key_rows { All (IsKeyRow (B.meaning book.now) kinds.now) keys.now }
    requires directions { length desc.now ≡ length kinds.now }
    ensures { IfOk result
        (λ places. AreSorted (row_order (B.meaning book.now) kinds.now desc.now) keys.now places) }
{
    sorted_places(
        alloc,
        book,
        keys.as_slice(),
        kinds.as_slice(),
        desc.as_slice(),
    )
}
