ghost use Rattle.mc_exec.specs.Given.{alone};
ghost use Rattle.std.specs.Prelude.{◌≡◌, [], OnOk, map};

use mc_base::{List, NoMemory};
use mc_values::Row;
use std::marker::Model;

/// What expressions are evaluated in: a row, and the values of the aggregates over its group.
#[derive(Drop)]
pub(crate) struct LentSubject<'a, 'b> {
    pub(crate) row: &'a Row,
    pub(crate) aggregates: &'b Row,
}

impl<'a, 'b> Model for LentSubject<'a, 'b> {
    ghost use Rattle.mc_exec.specs.Given.{Subject};

    ghost Value = { Subject };

    ghost view = { λ subject. record {
      row = subject.row.now;
      aggregates = subject.aggregates.now;
    } };
}

impl<'a, 'b> LentSubject<'a, 'b> {
    /// The same once more.
    pub(crate) fn again(&self) -> LentSubject<'a, 'b>
        ensures { result ≡ self.now }
    {
        LentSubject {
            row: self.row,
            aggregates: self.aggregates,
        }
    }
}

/// Appends rows without aggregates. `empty` is a row without values.
pub(crate) fn put_alone<'a, 'b>(
    rows: &[&'a Row],
    empty: &'b Row,
    subjects: &mut List<LentSubject<'a, 'b>>,
) -> Result<(), NoMemory>
    requires none { subjects.old ≡ [] }
    requires empty { empty.now ≡ [] }
    ensures { OnOk result (subjects.new ≡ map alone (map (λ row. row.now) rows.now)) }
{
    for row in rows {
        subjects.push(LentSubject {
            row: *row,
            aggregates: empty,
        })?;
    }
    Ok(())
}
