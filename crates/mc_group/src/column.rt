ghost use Rattle.mc_group.specs.Cells.{column_of, columns_of};
ghost use Rattle.mc_group.specs.Kinds.{IsInBook};
ghost use Rattle.std.specs.List.{All};
ghost use Rattle.std.specs.Prelude.{◌≡◌, IfOk, false, slice_index_or};

use crate::kind::KeyKind;
use mc_base::{List, NoMemory};
use mc_order::{Book, Collation, Pad};
use std::alloc::Global;

/// How the cells of a kind compare: the padding and the space of texts, and the direction.
#[derive(Drop)]
pub(crate) struct Column {
    pub(crate) pad: Pad,
    pub(crate) space: u32,
    pub(crate) desc: bool,
}

/// How the cells of a kind compare.
fn column_of<B: Book>(book: &B, kind: KeyKind, desc: bool) -> Column
    requires { IsInBook (B.count book.now) kind }
    ensures { result ≡ column_of (B.meaning book.now) kind desc }
{
    match kind {
        KeyKind::Int => Column {
            pad: Pad::NoPad,
            space: 0,
            desc,
        },
        KeyKind::Text(id) => {
            let collation = book.by_id(id);
            Column {
                pad: collation.pad(),
                space: collation.space(),
                desc,
            }
        }
    }
}

/// The direction at a place, ascending where there is none.
fn desc_at(desc: &[bool], i: usize) -> bool
    ensures { result ≡ slice_index_or desc.now i false }
{
    match desc.get(i) {
        Some(desc) => *desc,
        None => false,
    }
}

/// How the cells of a row compare.

pub(crate) fn columns_of<B: Book>(
    alloc: Global,
    book: &B,
    kinds: &[KeyKind],
    desc: &[bool],
) -> Result<List<Column>, NoMemory>
    requires { All (IsInBook (B.count book.now)) kinds.now }
    ensures { IfOk result
        (λ columns. columns ≡ columns_of (B.meaning book.now) kinds.now desc.now) }
{
    let mut columns = List::new(alloc);
    for (i, kind) in kinds.iter().enumerate() {
        columns.push(column_of(book, *kind, desc_at(desc, i)))?;
    }
    Ok(columns)
}
