ghost use Rattle.mc_exec.specs.Grouped.{value_kinds};
ghost use Rattle.mc_group.specs.Groups.{group_numbers, same_row};
ghost use Rattle.mc_group.specs.Kinds.{IsInBook, IsKeyRow};
ghost use Rattle.std.specs.Prelude.{◌≡◌, ◌∷◌, [], All, IfOk};

use crate::order::put_value_kinds;
use mc_base::{List, NoMemory};
use mc_group::{KeyKind, group_rows};
use mc_order::Book;
use mc_typing::TypedExpr;
use mc_values::Row;
use std::alloc::Global;

/// The numbers of the groups of rows, which are the values of these expressions.
pub(crate) fn value_numbers<B: Book>(
    alloc: Global,
    exprs: &[TypedExpr],
    rows: &List<Row>,
    book: &B,
) -> Result<List<u32>, NoMemory>
    requires in_book { All (IsInBook (B.count book.now)) (value_kinds exprs.now) }
    requires key_rows { All (IsKeyRow (B.meaning book.now) (value_kinds exprs.now)) rows.now }
    ensures { IfOk result (λ numbers. numbers
        ≡ group_numbers (same_row (B.meaning book.now) (value_kinds exprs.now)) rows.now) }
{
    let mut kinds = List::new(alloc);
    put_value_kinds(exprs, &mut kinds)?;
    group_rows(alloc, rows, &kinds, book)
}

/// The numbers of the groups of rows of one value of this kind.
pub(crate) fn class_numbers<B: Book>(
    alloc: Global,
    kind: KeyKind,
    rows: &List<Row>,
    book: &B,
) -> Result<List<u32>, NoMemory>
    requires in_book { IsInBook (B.count book.now) kind }
    requires key_rows { All (IsKeyRow (B.meaning book.now) (kind ∷ [])) rows.now }
    ensures { IfOk result (λ numbers.
        numbers ≡ group_numbers (same_row (B.meaning book.now) (kind ∷ [])) rows.now) }
{
    let mut kinds = List::new(alloc);
    kinds.push(kind)?;
    group_rows(alloc, rows, &kinds, book)
}
