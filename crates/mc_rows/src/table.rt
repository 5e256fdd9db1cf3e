ghost use Rattle.std.specs.Prelude.{
  ◌≡◌,
  ◌+◌,
  ◌-◌,
  ◌^◌,
  ◌<◌,
  ◌≤◌,
  ◌↔◌,
  [],
  IsTrue,
  Some,
  length,
  min,
  slice_get,
};
ghost use Rattle.mc_rows.specs.Records.{most_rows};

use mc_base::{List, Steps};
use mc_values::Row;
use std::marker::{Model, PhantomData};

/// The rows of a table, at most 200,000, which contracts see as their list. `L` only marks which
/// counter counts when a row is fetched.
#[derive(Drop)]
pub struct Table<L> {
    rows: List<Row>,
    mark: PhantomData<L>,
}

impl<L> Model for Table<L> {
    ghost use Rattle.std.specs.Prelude.{List, ◌≤◌, length};
    ghost use Rattle.mc_values.specs.declared.value.Value.{Value as Cell};
    ghost use Rattle.mc_rows.specs.Records.{most_rows};

    ghost Value = { List (List Cell) };

    ghost view = { λ table. table.rows };

    ghost invariant = { λ table. length table.rows ≤ most_rows };
}

impl<L> Table<L> {
    /// The table of these rows.
    pub(crate) fn new(rows: List<Row>) -> Table<L>
        requires { length rows ≤ most_rows }
        ensures { result ≡ rows }
    {
        Table {
            rows,
            mark: PhantomData,
        }
    }

    /// How many rows it has, at most 200,000.
    pub fn len(&self) -> u32
        ensures is { result ≡ length self.now }
        ensures few { result ≤ most_rows }
    {
        self.rows.len() as u32
    }

    /// Whether it has no rows.
    pub fn is_empty(&self) -> bool
        ensures { IsTrue result ↔ (self.now ≡ []) }
    {
        self.rows.is_empty()
    }

    /// The row of this number, from 0. It ticks once, and is the only way to a row.
    pub fn fetch(&self, i: u32, steps: &mut Steps<L>) -> &Row
        requires { i < length self.now }
        ensures row { slice_get self.now i ≡ Some result.now }
        ensures tick { steps.new ≡ min (steps.old + 1) (2 ^ 64 - 1) }
        ensures later { steps.old ≤ steps.new }
        ensures steps { steps.new ≤ steps.old + 1 }
    {
        let _before = steps.count();
        steps.tick();
        &self.rows.as_slice()[i as usize]
    }
}
