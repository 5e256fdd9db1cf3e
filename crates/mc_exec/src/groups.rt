ghost use Rattle.mc_eval.specs.Fit.{has_like};
ghost use Rattle.mc_eval.specs.Outcomes.{IsKept};
ghost use Rattle.mc_exec.specs.Given.{alone, values_in, values_of};
ghost use Rattle.mc_exec.specs.Grouped.{grouped, groups_by, parted, value_kinds};
ghost use Rattle.mc_exec.specs.Ready.{GiveKinds};
ghost use Rattle.mc_exec.specs.Steps.{GoesOn, IsFit, appended, picked, with_all};
ghost use Rattle.mc_exec.specs.Told.{TellsOf};
ghost use Rattle.mc_group.specs.Groups.{same_row};
ghost use Rattle.mc_group.specs.Kinds.{IsInBook, IsKeyRow};
ghost use Rattle.std.specs.List.{list_any};
ghost use Rattle.std.specs.Prelude.{
  ◌≡◌,
  ◌<◌,
  ◌++◌,
  ◌∷◌,
  [],
  All,
  OnOk,
  length,
  map,
  option_map,
  set,
  slice_index_or,
};

use crate::counts::group_count;
use crate::fault::ExecFault;
use crate::keys::put_row;
use crate::numbers::value_numbers;
use crate::subject::LentSubject;
use mc_base::{List, NoMemory, Steps};
use mc_group::group_laws;
use mc_order::Book;
use mc_typing::TypedExpr;
use mc_values::Row;
use std::alloc::Global;
use std::marker::Model;

/// Groups of rows that are lent, which contracts see as lists of rows.
#[derive(Drop)]
pub(crate) struct Groups<'a> {
    groups: Vec<List<&'a Row>>,
}

impl<'a> Model for Groups<'a> {
    ghost use Rattle.mc_values.specs.declared.value.Value.{Value as Cell};
    ghost use Rattle.std.specs.Prelude.{List as Members, map};

    ghost Value = { Members (Members (Members Cell)) };

    ghost view = { λ it. map (λ rows. map (λ row. row.now) rows) it.groups.items };
}

impl<'a> Groups<'a> {
    /// No groups.
    pub(crate) fn new(alloc: Global) -> Groups<'a>
        ensures { result ≡ [] }
    {
        Groups {
            groups: Vec::new(alloc),
        }
    }

    /// How many groups there are.
    pub(crate) fn len(&self) -> usize
        ensures { result ≡ length self.now }
    {
        self.groups.len()
    }

    /// The rows of a group.
    pub(crate) fn rows(&self, place: usize) -> &[&'a Row]
        requires { place < length self.now }
        ensures { map (λ row. row.now) result.now ≡ slice_index_or self.now place [] }
    {
        self.groups[place].as_slice()
    }

    /// Appends a group of these rows.
    fn push(&mut self, alloc: Global, rows: &[&'a Row]) -> Result<(), NoMemory>
        ensures { OnOk result (self.new ≡ self.old ++ map (λ row. row.now) rows.now ∷ []) }
    {
        self.groups.push(List::from_slice(alloc, rows)?)?;
        Ok(())
    }

    /// Appends a group without rows.
    fn open(&mut self, alloc: Global) -> Result<(), NoMemory>
        ensures { OnOk result (self.new ≡ self.old ++ [] ∷ []) }
    {
        self.groups.push(List::new(alloc))?;
        Ok(())
    }

    /// Appends a row to a group.
    fn put(&mut self, place: usize, row: &'a Row) -> Result<(), NoMemory>
        requires { place < length self.old }
        ensures { OnOk result (self.new ≡ set self.old place
            (slice_index_or self.old place [] ++ row.now ∷ [])) }
    {
        self.groups[place].push(row)
    }
}

/// Appends so many groups without rows to none.
fn open_groups(alloc: Global, count: usize, groups: &mut Groups) -> Result<(), NoMemory>
    requires { groups.old ≡ [] }
    ensures { OnOk result (groups.new ≡ parted count [] []) }
{
    for turn in 0..count {
        groups.open(alloc)?;
    }
    Ok(())
}

/// Appends each row to the group of its number, if there is one.
fn put_numbered<'a>(
    rows: &[&'a Row],
    numbers: &[u32],
    groups: &mut Groups<'a>,
) -> Result<(), NoMemory>
    requires as_many { length numbers.now ≡ length rows.now }
    requires opened { groups.old ≡ parted (length groups.old) [] [] }
    ensures { OnOk result (groups.new
        ≡ parted (length groups.old) numbers.now (map (λ row. row.now) rows.now)) }
{
    for (i, row) in rows.iter().enumerate() {
        let place = numbers[i] as usize;
        if place < groups.len() {
            groups.put(place, row)?;
        }
    }
    Ok(())
}

/// Appends the groups of rows by their numbers to none.
fn put_by_numbers<'a>(
    alloc: Global,
    rows: &[&'a Row],
    numbers: &[u32],
    groups: &mut Groups<'a>,
) -> Result<(), NoMemory>
    requires as_many { length numbers.now ≡ length rows.now }
    requires none { groups.old ≡ [] }
    ensures { OnOk result (groups.new ≡ parted (length (picked 0 numbers.now numbers.now))
        numbers.now (map (λ row. row.now) rows.now)) }
{
    open_groups(alloc, group_count(numbers), groups)?;
    put_numbered(rows, numbers, groups)
}

/// Appends the groups of rows by these keys to none.
fn put_parted<'a, B: Book>(
    alloc: Global,
    exprs: &[TypedExpr],
    rows: &[&'a Row],
    keys: &List<Row>,
    book: &B,
    groups: &mut Groups<'a>,
) -> Result<(), NoMemory>
    requires in_book { All (IsInBook (B.count book.now)) (value_kinds exprs.now) }
    requires key_rows { All (IsKeyRow (B.meaning book.now) (value_kinds exprs.now)) keys.now }
    requires as_many { length keys.now ≡ length rows.now }
    requires none { groups.old ≡ [] }
    ensures { OnOk result (groups.new
        ≡ grouped (same_row (B.meaning book.now) (value_kinds exprs.now)) keys.now
        (map (λ row. row.now) rows.now)) }
{
    group_laws();
    let numbers = value_numbers(alloc, exprs, keys, book)?;
    put_by_numbers(alloc, rows, numbers.as_slice(), groups)
}

/// Appends the row of expressions' values in a row.
fn put_key<B: Book, W>(
    alloc: Global,
    exprs: &[TypedExpr],
    row: &Row,
    book: &B,
    work: &mut Steps<W>,
    keys: &mut List<Row>,
) -> Result<(), ExecFault>
    requires fit { All (IsFit (B.count book.now)) exprs.now }
    requires row { All IsKept row.now }
    requires kept { All (All IsKept) keys.old }
    ensures told { TellsOf (appended keys.old
        (values_in (B.meaning book.now) exprs.now (alone row.now))) keys.new result }
    ensures kept { All (All IsKept) keys.new }
    ensures work { GoesOn (list_any has_like exprs.now) work.old work.new }
{
    let none = Row::new(alloc);
    let subject = LentSubject {
        row,
        aggregates: &none,
    };
    put_row(alloc, exprs, &subject, book, work, keys)
}

/// Appends the rows of expressions' values in each of these rows.
fn put_keys<B: Book, W>(
    alloc: Global,
    exprs: &[TypedExpr],
    rows: &[&Row],
    book: &B,
    work: &mut Steps<W>,
    keys: &mut List<Row>,
) -> Result<(), ExecFault>
    requires fit { All (IsFit (B.count book.now)) exprs.now }
    requires rows { All (λ row. All IsKept row.now) rows.now }
    requires kept { All (All IsKept) keys.old }
    ensures told { TellsOf
        (with_all (λ row. values_in (B.meaning book.now) exprs.now (alone row.now))
        keys.old rows.now) keys.new result }
    ensures kept { All (All IsKept) keys.new }
    ensures work { GoesOn (list_any has_like exprs.now) work.old work.new }
{
    for row in rows {
        match put_key(alloc, exprs, row, book, work, keys) {
            Ok(()) => {}
            Err(fault) => return Err(fault),
        }
    }
    Ok(())
}

/// Appends the groups of rows by expressions to none.
fn put_by<'a, B: Book, W>(
    alloc: Global,
    exprs: &[TypedExpr],
    rows: &[&'a Row],
    book: &B,
    work: &mut Steps<W>,
    groups: &mut Groups<'a>,
) -> Result<(), ExecFault>
    requires fit { All (IsFit (B.count book.now)) exprs.now }
    requires in_book { All (IsInBook (B.count book.now)) (value_kinds exprs.now) }
    requires rows { All (λ row. All IsKept row.now) rows.now }
    requires kinds { All (λ row. GiveKinds (B.meaning book.now) exprs.now (alone row.now))
        rows.now }
    requires none { groups.old ≡ [] }
    ensures told { TellsOf (option_map (λ keys.
        grouped (same_row (B.meaning book.now) (value_kinds exprs.now)) keys
        (map (λ row. row.now) rows.now))
        (values_of (B.meaning book.now) exprs.now (map alone (map (λ row. row.now) rows.now))))
        groups.new result }
    ensures work { GoesOn (list_any has_like exprs.now) work.old work.new }
{
    let mut keys = List::new(alloc);
    match put_keys(alloc, exprs, rows, book, work, &mut keys) {
        Ok(()) => match put_parted(alloc, exprs, rows, &keys, book, groups) {
            Ok(()) => Ok(()),
            Err(error) => Err(ExecFault::from(error)),
        },
        Err(fault) => Err(fault),
    }
}

/// Appends the groups of rows by expressions to none; all rows are one where there is no
/// expression.
pub(crate) fn put_groups<'a, B: Book, W>(
    alloc: Global,
    exprs: &[TypedExpr],
    rows: &[&'a Row],
    book: &B,
    work: &mut Steps<W>,
    groups: &mut Groups<'a>,
) -> Result<(), ExecFault>
    requires fit { All (IsFit (B.count book.now)) exprs.now }
    requires in_book { All (IsInBook (B.count book.now)) (value_kinds exprs.now) }
    requires rows { All (λ row. All IsKept row.now) rows.now }
    requires kinds { All (λ row. GiveKinds (B.meaning book.now) exprs.now (alone row.now))
        rows.now }
    requires none { groups.old ≡ [] }
    ensures told { TellsOf
        (groups_by (B.meaning book.now) exprs.now (map (λ row. row.now) rows.now))
        groups.new result }
    ensures work { GoesOn (list_any has_like exprs.now) work.old work.new }
{
    if exprs.is_empty() {
        groups.push(alloc, rows)?;
        return Ok(());
    }
    put_by(alloc, exprs, rows, book, work, groups)
}
