ghost use Rattle.mc_group.specs.Kinds.{IsKeyRow, IsOfKind};
ghost use Rattle.mc_group.specs.declared.kind.KeyKind.TheVariants as kind;
ghost use Rattle.mc_order.specs.Bin.{bin_meaning};
ghost use Rattle.mc_order.specs.Meaning.{Meaning};
ghost use Rattle.std.specs.List.{All};
ghost use Rattle.std.specs.Prelude.{◌≡◌, ◌∷◌, [], ℕ, IfOk};

use mc_base::{List, NoMemory, Text};
use mc_charset::{CollId, is_well_formed};
use mc_group::{KeyKind, SumFault, group_rows, order_rows, sum};
use mc_order::{BinCollation, Book, Collation};
use mc_values::{Row, Value};
use std::alloc::Global;

/// A book of one collation.
#[derive(Drop)]
struct OneBook {
    collation: BinCollation,
}

impl Book for OneBook {
    type C = BinCollation;

    ghost meaning = { λ book id. bin_meaning book.collation };

    ghost count = { λ book. 1 };

    fn count(&self) -> u32 {
        1
    }

    fn by_id(&self, _id: CollId) -> &BinCollation {
        &self.collation
    }
}

/// The kinds of a key: a number, and a text under latin1_bin, which pads.
const KINDS: [KeyKind; 2] = [KeyKind::Int, KeyKind::Text(CollId(0))];

/// Keys: a number or NULL, and a text.
const KEYS: [(Option<i64>, &[u8]); 5] = [
    (Some(1), b"b"),
    (None, b"a"),
    (Some(1), b"a "),
    (Some(1), b"a"),
    (Some(2), b"a"),
];

/// A number, or NULL.
fn number(of: Option<i64>) -> Value
    ensures { (meaning : ℕ → Meaning) → IsOfKind meaning kind.Int result }
{
    match of {
        Some(number) => Value::Int(number),
        None => Value::Null,
    }
}

/// A text of the book's set, or NULL where it is none.
fn text(alloc: Global, book: &OneBook, id: CollId, text: &[u8]) -> Result<Value, NoMemory>
    ensures { IfOk result
        (λ value. IsOfKind (λ id. bin_meaning book.now.collation) (kind.Text id) value) }
{
    let charset = book.collation.charset();
    if !is_well_formed(charset, text) {
        return Ok(Value::Null);
    }
    let text = Text::from_slice(alloc, text)?;
    Ok(Value::Str { charset, text })
}

/// A row of two values.
fn pair(alloc: Global, one: Value, other: Value) -> Result<Row, NoMemory>
    ensures { IfOk result (λ row. row ≡ one ∷ other ∷ []) }
{
    let mut row = List::new(alloc);
    row.push(one)?;
    row.push(other)?;
    Ok(row)
}

/// A key row.
fn key_row(alloc: Global, book: &OneBook, of: Option<i64>, bytes: &[u8]) -> Result<Row, NoMemory>
    ensures { IfOk result (λ row. IsKeyRow (λ id. bin_meaning book.now.collation) KINDS row) }
{
    let value = text(alloc, book, CollId(0), bytes)?;
    let row = pair(alloc, number(of), value)?;
    Ok(row)
}

/// The key rows.
fn key_rows(alloc: Global, book: &OneBook) -> Result<List<Row>, NoMemory>
    ensures { IfOk result
        (λ rows. All (IsKeyRow (λ id. bin_meaning book.now.collation) KINDS) rows) }
{
    let mut rows = List::new(alloc);
    for key in &KEYS {
        rows.push(key_row(alloc, book, key.0, key.1)?)?;
    }
    Ok(rows)
}

/// The kinds as a list.
fn kinds(alloc: Global) -> Result<List<KeyKind>, NoMemory>
    ensures { IfOk result (λ kinds. kinds ≡ KINDS) }
{
    List::from_slice(alloc, &KINDS)
}

/// The places of the keys in order, descending by the number, and the numbers of their groups.
fn order_and_groups(alloc: Global) -> Result<(List<u32>, List<u32>), NoMemory> {
    let book = OneBook {
        collation: BinCollation::new(CollId(1)),
    };
    let kinds = kinds(alloc)?;
    let keys = key_rows(alloc, &book)?;
    let desc = List::from_slice(alloc, &[true, false])?;
    let places = order_rows(alloc, &keys, &kinds, &desc, &book)?;
    let groups = group_rows(alloc, &keys, &kinds, &book)?;
    Ok((places, groups))
}

#[test]
fn rows_are_sorted_and_grouped(rt: HostRuntime) {
    let found = order_and_groups(rt.alloc());
    let want_places: [u32; 5] = [4, 2, 3, 0, 1];
    let want_groups: [u32; 5] = [0, 1, 2, 2, 3];
    assert!(rt;
        matches!(&found, Ok((places, groups))
            if places.as_slice() == want_places.as_slice()
                && groups.as_slice() == want_groups.as_slice())
    );
}

/// Numbers, and NULL in place of None.
fn numbers(alloc: Global, of: &[Option<i64>]) -> Result<List<Value>, NoMemory> {
    let mut values = List::new(alloc);
    for number in of {
        match number {
            Some(number) => values.push(Value::Int(*number))?,
            None => values.push(Value::Null)?,
        }
    }
    Ok(values)
}

#[test]
fn only_the_whole_sum_is_limited(rt: HostRuntime) {
    let whole = numbers(rt.alloc(), &[Some(i64::MAX), Some(1), None, Some(-5)]);
    assert!(rt;
        matches!(&whole, Ok(values)
            if matches!(sum(values), Ok(Value::Int(9_223_372_036_854_775_803))))
    );
    let great = numbers(rt.alloc(), &[Some(i64::MAX), Some(1)]);
    assert!(rt; matches!(&great, Ok(values) if matches!(sum(values), Err(SumFault::OutOfRange))));
    let none = numbers(rt.alloc(), &[None]);
    assert!(rt; matches!(&none, Ok(values) if matches!(sum(values), Ok(Value::Null))));
}
