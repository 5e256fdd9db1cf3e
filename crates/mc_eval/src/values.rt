ghost use Rattle.mc_eval.specs.Acceptance.{TellsAcceptance, acceptance};
ghost use Rattle.mc_eval.specs.Fit.{fits, has_like};
ghost use Rattle.mc_eval.specs.Node.{place};
ghost use Rattle.mc_eval.specs.Outcomes.{GivesKept, IsKept, Tells};
ghost use Rattle.mc_eval.specs.Value.{value};
ghost use Rattle.mc_eval.specs.Walk.{GoesOn};
ghost use Rattle.std.specs.List.{list_any};
ghost use Rattle.std.specs.Prelude.{◌≡◌, ◌≤◌, [], All, IsTrue, false};

use crate::fault::EvalFault;
use crate::operands::owned;
use crate::truth::Truth;
use crate::walk::operand;
use mc_base::{List, NoMemory, Steps};
use mc_order::Book;
use mc_typing::TypedExpr;
use mc_values::{Row, Value};
use std::alloc::Global;

/// The value of a typed expression in a row, where `aggregates` holds the values of its aggregates
/// at their places: MySQL 8.0 manual, 12. `OutOfRange` where a number that it needs is outside 64
/// bits, `NoMemory` where memory runs out. Only LIKE adds to `work`.
pub fn eval<B: Book, W>(
    alloc: Global,
    e: &TypedExpr,
    row: &Row,
    aggregates: &Row,
    book: &B,
    work: &mut Steps<W>,
) -> Result<Value, EvalFault>
    requires fits { IsTrue (fits (B.count book.now) e.now) }
    requires row { All IsKept row.now }
    requires aggregates { All IsKept aggregates.now }
    ensures told { Tells (value (place row.now aggregates.now (B.meaning book.now)) e.now) result }
    ensures kept { GivesKept result }
    ensures still { has_like e.now ≡ false → work.new ≡ work.old }
    ensures later { work.old ≤ work.new }
{
    owned(alloc, operand(e, alloc, row, aggregates, book, work))
}

/// Whether conjuncts accept a row, up to the first that does not.
fn accepted<B: Book, W>(
    conjuncts: &[TypedExpr],
    alloc: Global,
    row: &Row,
    aggregates: &Row,
    book: &B,
    work: &mut Steps<W>,
) -> Result<bool, EvalFault>
    requires fits { All (λ e. IsTrue (fits (B.count book.now) e)) conjuncts.now }
    requires row { All IsKept row.now }
    requires aggregates { All IsKept aggregates.now }
    ensures told { TellsAcceptance (acceptance
        (place row.now aggregates.now (B.meaning book.now)) conjuncts.now) result }
    ensures work { GoesOn (list_any has_like conjuncts.now) work.old work.new }
{
    let mut so_far = Truth::Yes;
    for e in conjuncts {
        match Truth::of_operand(operand(e, alloc, row, aggregates, book, work)) {
            Ok(it) => so_far = so_far.least(it.firm()),
            Err(NoMemory) => return Err(EvalFault::NoMemory),
        }
        if let Truth::No = so_far {
            return Ok(false);
        }
    }
    so_far.accepts()
}

/// Whether a list of conjuncts accepts a row: not where one is false or NULL. Else `OutOfRange`
/// where a number that one needs is outside 64 bits; `NoMemory` where memory runs out. Only LIKE
/// adds to `work`. MySQL 8.0 manual, 13.2.10.
pub fn accepts<B: Book, W>(
    alloc: Global,
    conjuncts: &List<TypedExpr>,
    row: &Row,
    book: &B,
    work: &mut Steps<W>,
) -> Result<bool, EvalFault>
    requires fits { All (λ e. IsTrue (fits (B.count book.now) e)) conjuncts.now }
    requires row { All IsKept row.now }
    ensures told { TellsAcceptance
        (acceptance (place row.now [] (B.meaning book.now)) conjuncts.now) result }
    ensures still { list_any has_like conjuncts.now ≡ false → work.new ≡ work.old }
    ensures later { work.old ≤ work.new }
{
    let aggregates = List::new(alloc);
    accepted(conjuncts.as_slice(), alloc, row, &aggregates, book, work)
}
