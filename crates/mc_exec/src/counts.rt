ghost use Rattle.mc_exec.specs.Aggregates.{count_of, present};
ghost use Rattle.mc_exec.specs.Steps.{picked};
ghost use Rattle.mc_group.specs.Groups.{firsts, same_row, same_value};
ghost use Rattle.mc_group.specs.Kinds.{IsInBook, IsKeyRow, IsOfKind};
ghost use Rattle.mc_group.specs.Sums.{is_null};
ghost use Rattle.mc_values.specs.declared.value.Value.TheVariants as value;
ghost use Rattle.std.specs.Prelude.{
  ◌≡◌,
  ◌∷◌,
  [],
  All,
  IfOk,
  OnOk,
  length,
  map,
  pos,
};

use crate::numbers::class_numbers;
use mc_base::{List, NoMemory};
use mc_group::{KeyKind, group_laws};
use mc_order::Book;
use mc_values::{Row, Value, copy_value};
use std::alloc::Global;

/// A count as a value.
pub(crate) fn number(count: usize) -> Result<Value, NoMemory>
    ensures { IfOk result (λ it. it ≡ value.Int (pos count)) }
{
    match i64::try_from(count) {
        Ok(number) => Ok(Value::Int(number)),
        Err(_) => Err(NoMemory),
    }
}

/// How many groups there are: how many numbers are the next one that is new.
pub(crate) fn group_count(numbers: &[u32]) -> usize
    ensures { result ≡ length (picked 0 numbers.now numbers.now) }
{
    let mut count = 0;
    for number in numbers {
        if *number as usize == count {
            count += 1;
        }
    }
    count
}

/// Whether a value is NULL.
fn is_null(it: &Value) -> bool
    ensures { result ≡ is_null it.now }
{
    matches!(it, Value::Null)
}

/// How many values are not NULL.
fn present_count(values: &[Value]) -> usize
    ensures { result ≡ length (present values.now) }
{
    let mut count = 0;
    for it in values {
        if !is_null(it) {
            count += 1;
        }
    }
    count
}

/// A row of one value, which is copied.
fn row_of(alloc: Global, it: &Value) -> Result<Row, NoMemory>
    ensures { IfOk result (λ row. row ≡ it.now ∷ []) }
{
    let mut row = Row::new(alloc);
    row.push(copy_value(alloc, it)?)?;
    Ok(row)
}

/// Appends a row of each value that is not NULL to a list without any.
fn put_present(alloc: Global, values: &[Value], rows: &mut List<Row>) -> Result<(), NoMemory>
    requires { rows.old ≡ [] }
    ensures { OnOk result (rows.new ≡ map (λ it. it ∷ []) (present values.now)) }
{
    for it in values {
        if !is_null(it) {
            rows.push(row_of(alloc, it)?)?;
        }
    }
    Ok(())
}

/// How many groups rows of one value form.
fn row_classes<B: Book>(
    alloc: Global,
    kind: KeyKind,
    rows: &List<Row>,
    book: &B,
) -> Result<usize, NoMemory>
    requires in_book { IsInBook (B.count book.now) kind }
    requires key_rows { All (IsKeyRow (B.meaning book.now) (kind ∷ [])) rows.now }
    ensures { IfOk result (λ count.
        count ≡ length (firsts (same_row (B.meaning book.now) (kind ∷ [])) rows.now)) }
{
    group_laws();
    let numbers = class_numbers(alloc, kind, rows, book)?;
    Ok(group_count(numbers.as_slice()))
}

/// How many values there are that are not NULL and that no earlier one is the same as.
fn class_count<B: Book>(
    alloc: Global,
    kind: KeyKind,
    values: &[Value],
    book: &B,
) -> Result<usize, NoMemory>
    requires in_book { IsInBook (B.count book.now) kind }
    requires of_kind { All (IsOfKind (B.meaning book.now) kind) values.now }
    ensures { IfOk result (λ count.
        count ≡ length (firsts (same_value (B.meaning book.now) kind) (present values.now))) }
{
    let mut rows = List::new(alloc);
    put_present(alloc, values, &mut rows)?;
    row_classes(alloc, kind, &rows, book)
}

/// COUNT of values.
pub(crate) fn count_of<B: Book>(
    alloc: Global,
    kind: KeyKind,
    distinct: bool,
    values: &[Value],
    book: &B,
) -> Result<Value, NoMemory>
    requires in_book { IsInBook (B.count book.now) kind }
    requires of_kind { All (IsOfKind (B.meaning book.now) kind) values.now }
    ensures { IfOk result (λ it.
        it ≡ value.Int (pos (count_of (B.meaning book.now) kind distinct values.now))) }
{
    if distinct {
        match class_count(alloc, kind, values, book) {
            Ok(count) => number(count),
            Err(error) => Err(error),
        }
    } else {
        number(present_count(values))
    }
}
