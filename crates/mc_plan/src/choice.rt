ghost use Rattle.mc_catalog.specs.Fits.{FitsCatalog};
ghost use Rattle.mc_catalog.specs.Lawful.{IsLawful};
ghost use Rattle.mc_plan.specs.Constants.{HasTexts};
ghost use Rattle.mc_plan.specs.Plans.{
  HasPlaces,
  HasPlanBounds,
  chosen,
  first_given,
  index_choice,
  plan_of,
  ranges,
};
ghost use Rattle.mc_plan.specs.Rejects.{LosesNone};
ghost use Rattle.mc_range.specs.Bounds.{HasBounds};
ghost use Rattle.mc_range.specs.Condition.{IsCondOf};
ghost use Rattle.mc_range.specs.Intervals.{intervals_of};
ghost use Rattle.mc_plan.specs.Steps.{
  IsInBook,
  RejectFound,
  RejectOutside,
  RejectRest,
  RejectsOutside,
};
ghost use Rattle.mc_typing.specs.SoundStatements.{IsSoundStatement};
ghost use Rattle.std.specs.Prelude.{
  ◌≡◌,
  ◌<◌,
  All,
  IfOk,
  IfSome,
  Some,
  length,
  option_and_then,
  slice_get,
};

use crate::columns::index_collation;
use crate::conditions::cond_of;
use crate::laws::condition_law;
use crate::plan::Plan;
use mc_base::{List, NoMemory};
use mc_catalog::{Catalog, ColumnDecl, IndexDecl, TableDecl};
use mc_charset::{CollId, chars_law};
use mc_order::{Book, Collation};
use mc_range::{Cond, Interval, intervals, range_laws};
use mc_typing::{Typed, TypedExpr, sound_law};
use std::alloc::Global;

/// The place as a number of 32 bits. Memory doesn't hold more members than these number.
fn place_at(i: usize) -> Result<u32, NoMemory>
    ensures { IfOk result (λ place. place ≡ i) }
{
    match u32::try_from(i) {
        Ok(place) => Ok(place),
        Err(_) => Err(NoMemory),
    }
}

/// The intervals of a condition, if there is one, in an index.
fn in_index<C: Collation>(
    alloc: Global,
    collation: &C,
    index: &IndexDecl,
    cond: &Option<Cond>,
) -> Result<Option<List<Interval>>, NoMemory>
    requires { IfSome cond.now (IsCondOf (C.meaning collation.now).charset) }
    ensures { IfOk result (λ found. found
        ≡ option_and_then (intervals_of (C.meaning collation.now) index.now.prefix) cond.now) }
{
    match cond {
        Some(cond) => intervals(alloc, cond, index.prefix, collation),
        None => Ok(None),
    }
}

/// The intervals that a conjunct names in an index of a column with this collation.
fn ranges<B: Book>(
    alloc: Global,
    book: &B,
    index: &IndexDecl,
    coll: CollId,
    e: &TypedExpr,
) -> Result<Option<List<Interval>>, NoMemory>
    requires in_book { coll.0 < B.count book.now }
    requires texts { HasTexts e.now }
    ensures is { IfOk result
        (λ found. found ≡ ranges (B.meaning book.now) index.now coll e.now) }
    ensures rejects { IfOk result (λ found.
        IfSome found (RejectsOutside (B.meaning book.now) index.now coll e.now)) }
    ensures bounds { IfOk result (λ found. IfSome found (All HasBounds)) }
{
    condition_law();
    let collation = book.by_id(coll);
    range_laws(collation);
    let cond = cond_of(alloc, e, index.column, coll, collation.charset())?;
    let found = in_index(alloc, collation, index, &cond);
    drop(cond);
    found
}

/// The first conjunct that names intervals in an index of a column with this collation.
fn first_conjunct<B: Book>(
    alloc: Global,
    book: &B,
    index: &IndexDecl,
    coll: CollId,
    conjuncts: &[TypedExpr],
) -> Result<Option<(u32, List<Interval>)>, NoMemory>
    requires in_book { coll.0 < B.count book.now }
    requires texts { All HasTexts conjuncts.now }
    ensures is { IfOk result (λ found. found
        ≡ first_given (ranges (B.meaning book.now) index.now coll) conjuncts.now) }
    ensures rejects { IfOk result (λ found. IfSome found
        (λ it. RejectOutside (B.meaning book.now) index.now coll conjuncts.now it.1)) }
    ensures bounds { IfOk result (λ found. IfSome found (λ it. All HasBounds it.1)) }
{
    for (i, e) in conjuncts.iter().enumerate() {
        match ranges(alloc, book, index, coll, e)? {
            Some(found) => return Ok(Some((place_at(i)?, found))),
            None => {}
        }
    }
    Ok(None)
}

/// The first conjunct that names intervals in an index.
fn index_choice<B: Book>(
    alloc: Global,
    book: &B,
    columns: &[ColumnDecl],
    conjuncts: &[TypedExpr],
    index: &IndexDecl,
) -> Result<Option<(u32, List<Interval>)>, NoMemory>
    requires in_book { IsInBook (B.count book.now) columns.now index.now }
    requires texts { All HasTexts conjuncts.now }
    ensures is { IfOk result (λ found. found
        ≡ index_choice (B.meaning book.now) columns.now conjuncts.now index.now) }
    ensures rejects { IfOk result (λ found. IfSome found (λ it.
        RejectRest (B.meaning book.now) columns.now conjuncts.now index.now it.1)) }
    ensures bounds { IfOk result (λ found. IfSome found (λ it. All HasBounds it.1)) }
{
    match index_collation(columns, index) {
        Some(coll) => first_conjunct(alloc, book, index, coll, conjuncts),
        None => Ok(None),
    }
}

/// The first index in which some conjunct names intervals, with the first such conjunct.
fn first_index<B: Book>(
    alloc: Global,
    book: &B,
    columns: &[ColumnDecl],
    conjuncts: &[TypedExpr],
    indexes: &[IndexDecl],
) -> Result<Option<(u32, (u32, List<Interval>))>, NoMemory>
    requires in_book { All (IsInBook (B.count book.now) columns.now) indexes.now }
    requires texts { All HasTexts conjuncts.now }
    ensures is { IfOk result (λ found. found
        ≡ first_given (index_choice (B.meaning book.now) columns.now conjuncts.now) indexes.now) }
    ensures rejects { IfOk result (λ found. IfSome found
        (RejectFound (B.meaning book.now) columns.now conjuncts.now indexes.now)) }
    ensures bounds { IfOk result (λ found. IfSome found (λ it. All HasBounds it.1.1)) }
{
    for (i, index) in indexes.iter().enumerate() {
        match index_choice(alloc, book, columns, conjuncts, index)? {
            Some(found) => return Ok(Some((place_at(i)?, found))),
            None => {}
        }
    }
    Ok(None)
}

/// The plan by what was found.
fn plan_of(found: Option<(u32, (u32, List<Interval>))>) -> Plan
    ensures { result ≡ plan_of found }
{
    match found {
        Some((index, (conjunct, intervals))) => Plan::ByIndex {
            index,
            conjunct,
            intervals,
        },
        None => Plan::Scan,
    }
}

/// The table at a place.
fn table_at(c: &Catalog, place: u32) -> &TableDecl
    requires { place < length c.now.tables }
    ensures { slice_get c.now.tables place ≡ Some result.now }
{
    &c.tables.as_slice()[place as usize]
}

/// The plan of a typed statement: the first index of its table, in the catalog's order, in which
/// some conjunct of WHERE names intervals, with the first such conjunct; else a scan. `NoMemory`
/// where memory runs out. MySQL 8.0 manual, 8.2.1.2.
pub fn choose<B: Book>(alloc: Global, q: &Typed, c: &Catalog, book: &B) -> Result<Plan, NoMemory>
    requires lawful { IsLawful c.now }
    requires fits { FitsCatalog c.now (B.count book.now)
        (λ id. (B.meaning book.now id).charset) }
    requires sound { IsSoundStatement c.now q.now }
    ensures is { IfOk result (λ plan. plan ≡ chosen c.now (B.meaning book.now) q.now) }
    ensures places { IfOk result (HasPlaces (B.count book.now) c.now q.now) }
    ensures bounds { IfOk result HasPlanBounds }
    ensures loses_none { IfOk result (LosesNone c.now (B.meaning book.now) q.now) }
{
    sound_law();
    let Some(place) = q.table else {
        return Ok(Plan::Scan);
    };
    let table = table_at(c, place);
    let found = first_index(
        alloc,
        book,
        table.columns.as_slice(),
        q.conjuncts.as_slice(),
        table.indexes.as_slice(),
    )?;
    Ok(plan_of(found))
}
