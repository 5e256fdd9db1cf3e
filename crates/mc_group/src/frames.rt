ghost use Rattle.indexmap.specs.IndexSet.{insert_key};
ghost use Rattle.mc_charset.specs.Chars.{IsWellFormed, chars};
ghost use Rattle.mc_group.specs.Frames.{cell_frame, halves, key_cell, row_frame};
ghost use Rattle.mc_group.specs.Kinds.{IsInBook, IsKeyRow, IsOfKind};
ghost use Rattle.mc_group.specs.declared.cell.Cell.TheVariants as cell;
ghost use Rattle.mc_key.specs.Keys.{kept_list};
ghost use Rattle.mc_order.specs.Meaning.{flat_list};
ghost use Rattle.mc_values.specs.declared.value.Value.TheVariants as value;
ghost use Rattle.std.specs.List.{All, position_or_len};
ghost use Rattle.std.specs.Prelude.{◌≡◌, ◌++◌, ◌∷◌, [], IfOk, OnOk, slice_index_or};
ghost use Rattle.std.specs.Str.{bytes_eq};

use crate::kind::KeyKind;
use indexmap::IndexSet;
use mc_base::{NoMemory, Weights};
use mc_key::put_key;
use mc_order::{Book, Collation};
use mc_values::Value;
use std::alloc::Global;
use std::marker::Model;

/// Frames, each once, in the order in which they came.
#[derive(Drop)]
pub(crate) struct Frames {
    set: IndexSet<Vec<u32>>,
}

impl Model for Frames {
    ghost use Rattle.std.specs.Prelude.{List, ℕ, map};

    ghost Value = { List (List ℕ) };

    ghost view = { λ frames. map (λ frame. frame.items) frames.set.keys };
}

impl Frames {
    /// No frames.
    pub(crate) fn new(alloc: Global) -> Frames
        ensures { result ≡ [] }
    {
        Frames {
            set: IndexSet::new(alloc),
        }
    }

    /// The place of a frame, which is added where it is not there.
    pub(crate) fn place_of(&mut self, frame: Vec<u32>) -> Result<usize, NoMemory>
        ensures place { IfOk result (λ i. i ≡ position_or_len (bytes_eq frame.items) self.old) }
        ensures added { OnOk result (self.new ≡ insert_key bytes_eq self.old frame.items) }
    {
        let (i, _) = self.set.insert_full(frame)?;
        Ok(i)
    }
}

/// Appends the numbers of a number: its sign, and how far it is from 0, or from -1.
#[tactic(auto, unfolding(crate::specs::Frames::cell_frame))]
fn push_number(frame: &mut Vec<u32>, number: i64) -> Result<(), NoMemory>
    ensures { IfOk result
        (λ _. frame.new.items ≡ frame.old.items ++ cell_frame (cell.Number number)) }
{
    if number < 0 {
        push_sized(frame, 2, (-(number + 1)) as u64)
    } else {
        push_sized(frame, 1, number as u64)
    }
}

/// Appends a number of a kind, and two of a size.
fn push_sized(frame: &mut Vec<u32>, kind: u32, size: u64) -> Result<(), NoMemory>
    ensures { IfOk result (λ _. frame.new.items ≡ frame.old.items ++ kind ∷ halves size) }
{
    let high = (size / 4_294_967_296) as u32;
    let low = (size % 4_294_967_296) as u32;
    frame.extend_from_slice(&[kind, high, low])?;
    Ok(())
}

/// Appends the numbers of a list of weights.
#[tactic(auto, unfolding(crate::specs::Frames::cell_frame))]
fn push_weights(frame: &mut Vec<u32>, weights: &[u32]) -> Result<(), NoMemory>
    ensures { IfOk result
        (λ _. frame.new.items ≡ frame.old.items ++ cell_frame (cell.Weights weights.now)) }
{
    push_sized(frame, 3, weights.len() as u64)?;
    frame.extend_from_slice(weights)?;
    Ok(())
}

/// Appends the number of NULL.
#[tactic(auto, unfolding(crate::specs::Frames::cell_frame))]
fn push_null(frame: &mut Vec<u32>) -> Result<(), NoMemory>
    ensures { IfOk result (λ _. frame.new.items ≡ frame.old.items ++ cell_frame cell.Null) }
{
    frame.push(0)?;
    Ok(())
}

/// Appends the numbers of a text: of what a key keeps of its weights, which are
/// put in place of those in `kept`.
fn push_text<C: Collation>(
    kept: &mut Weights,
    frame: &mut Vec<u32>,
    collation: &C,
    text: &[u8],
) -> Result<(), NoMemory>
    requires { IsWellFormed (C.meaning collation.now).charset text.now }
    ensures { let m = C.meaning collation.now in
        let kept = kept_list m.pad m.space (flat_list m (chars m.charset text.now)) in
        IfOk result
        (λ _. frame.new.items ≡ frame.old.items ++ cell_frame (cell.Weights kept)) }
{
    kept.truncate(0);
    match put_key(collation, text, kept) {
        Ok(()) => push_weights(frame, kept.as_slice()),
        Err(error) => Err(error),
    }
}

/// Appends the numbers of a value.
fn push_value<B: Book>(
    kept: &mut Weights,
    frame: &mut Vec<u32>,
    book: &B,
    kind: KeyKind,
    value: &Value,
) -> Result<(), NoMemory>
    requires in_book { IsInBook (B.count book.now) kind }
    requires of_kind { IsOfKind (B.meaning book.now) kind value.now }
    ensures { IfOk result (λ _. frame.new.items
        ≡ frame.old.items ++ cell_frame (key_cell (B.meaning book.now) kind value.now)) }
{
    match (kind, value) {
        (_, Value::Null) => push_null(frame),
        (KeyKind::Int, Value::Int(number)) => push_number(frame, *number),
        (KeyKind::Int, Value::Str { .. }) => push_number(frame, 0),
        (KeyKind::Text(_), Value::Int(_)) => push_null(frame),
        (KeyKind::Text(id), Value::Str { text, .. }) => {
            push_text(kept, frame, book.by_id(id), text.as_slice())
        }
    }
}

/// Appends the numbers of the value of a row at a place.
fn push_at<B: Book>(
    kept: &mut Weights,
    frame: &mut Vec<u32>,
    book: &B,
    kind: KeyKind,
    row: &[Value],
    i: usize,
) -> Result<(), NoMemory>
    requires in_book { IsInBook (B.count book.now) kind }
    requires of_kind { IsOfKind (B.meaning book.now) kind (slice_index_or row.now i value.Null) }
    ensures { let it = slice_index_or row.now i value.Null in IfOk result (λ _. frame.new.items
        ≡ frame.old.items ++ cell_frame (key_cell (B.meaning book.now) kind it)) }
{
    match row.get(i) {
        Some(value) => push_value(kept, frame, book, kind, value),
        None => push_null(frame),
    }
}

/// The numbers of a row.
pub(crate) fn frame_of<B: Book>(
    alloc: Global,
    kept: &mut Weights,
    book: &B,
    kinds: &[KeyKind],
    row: &[Value],
) -> Result<Vec<u32>, NoMemory>
    requires in_book { All (IsInBook (B.count book.now)) kinds.now }
    requires key_row { IsKeyRow (B.meaning book.now) kinds.now row.now }
    ensures { IfOk result
        (λ frame. frame.items ≡ row_frame (B.meaning book.now) kinds.now row.now) }
{
    let mut frame = Vec::new(alloc);
    for (i, kind) in kinds.iter().enumerate() {
        push_at(kept, &mut frame, book, *kind, row, i)?;
    }
    Ok(frame)
}
