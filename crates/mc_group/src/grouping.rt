ghost use Rattle.mc_group.specs.Groups.{group_numbers, same_row};
ghost use Rattle.mc_group.specs.Kinds.{IsInBook, IsKeyRow};
ghost use Rattle.indexmap.specs.IndexSet.{insert_key};
ghost use Rattle.mc_group.specs.Frames.{row_frame};
ghost use Rattle.std.specs.List.{All, position_or_len};
ghost use Rattle.std.specs.Prelude.{◌≡◌, ◌<◌, [], IfOk, OnOk, length, slice_index_or};
ghost use Rattle.std.specs.Str.{bytes_eq};

use crate::frames::{Frames, frame_of};
use crate::kind::KeyKind;
use crate::order::place_at;
use mc_base::{List, NoMemory, Weights};
use mc_key::key_laws;
use mc_order::Book;
use mc_values::Row;
use std::alloc::Global;

/// The number of the group of the row at a place, whose frame is added where it is not there.
fn number_of<B: Book>(
    alloc: Global,
    kept: &mut Weights,
    seen: &mut Frames,
    book: &B,
    kinds: &[KeyKind],
    keys: &[Row],
    i: usize,
) -> Result<u32, NoMemory>
    requires in_book { All (IsInBook (B.count book.now)) kinds.now }
    requires key_rows { All (IsKeyRow (B.meaning book.now) kinds.now) keys.now }
    requires within { i < length keys.now }
    ensures number { let frame = row_frame (B.meaning book.now) kinds.now
        (slice_index_or keys.now i []) in
        IfOk result (λ number. number ≡ position_or_len (bytes_eq frame) seen.old) }
    ensures added { let frame = row_frame (B.meaning book.now) kinds.now
        (slice_index_or keys.now i []) in
        OnOk result (seen.new ≡ insert_key bytes_eq seen.old frame) }
{
    let frame = frame_of(alloc, kept, book, kinds, keys[i].as_slice())?;
    let place = seen.place_of(frame)?;
    let number = place_at(place)?;
    Ok(number)
}

/// The numbers of the rows' groups.
fn numbers_of<B: Book>(
    alloc: Global,
    book: &B,
    keys: &[Row],
    kinds: &[KeyKind],
) -> Result<List<u32>, NoMemory>
    requires in_book { All (IsInBook (B.count book.now)) kinds.now }
    requires key_rows { All (IsKeyRow (B.meaning book.now) kinds.now) keys.now }
    ensures { IfOk result (λ numbers.
        numbers ≡ group_numbers (same_row (B.meaning book.now) kinds.now) keys.now) }
{
    key_laws();
    let mut seen = Frames::new(alloc);
    let mut kept = Weights::new(alloc);
    let mut numbers = List::new(alloc);
    for i in 0..keys.len() {
        let number = number_of(alloc, &mut kept, &mut seen, book, kinds, keys, i)?;
        numbers.push(number)?;
    }
    Ok(numbers)
}

/// The number of each row's group. Groups are numbered from 0 by their first rows; rows are of one
/// group exactly where at each place both are NULL, or equal numbers, or texts of equal weights.
pub fn group_rows<B: Book>(
    alloc: Global,
    keys: &List<Row>,
    kinds: &List<KeyKind>,
    book: &B,
) -> Result<List<u32>, NoMemory>
    requires in_book { All (IsInBook (B.count book.now)) kinds.now }
    requires key_rows { All (IsKeyRow (B.meaning book.now) kinds.now) keys.now }
    ensures { IfOk result (λ numbers.
        numbers ≡ group_numbers (same_row (B.meaning book.now) kinds.now) keys.now) }
{
    numbers_of(alloc, book, keys.as_slice(), kinds.as_slice())
}
