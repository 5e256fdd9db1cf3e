ghost use Rattle.mc_eval.specs.Fit.{fits, has_like};
ghost use Rattle.mc_eval.specs.Held.{HoldAllKept, HoldsKept, TellsAll, TellsHeld};
ghost use Rattle.mc_eval.specs.Node.{place};
ghost use Rattle.mc_eval.specs.Outcomes.{IsKept};
ghost use Rattle.mc_eval.specs.Truths.{told};
ghost use Rattle.mc_eval.specs.Value.{value};
ghost use Rattle.mc_eval.specs.Walk.{GoesOn, chained, truths_in};
ghost use Rattle.std.specs.List.{list_any};
ghost use Rattle.std.specs.Prelude.{All, IsTrue, map};

use crate::constants::leaf;
use crate::fault::EvalFault;
use crate::held::Held;
use crate::nodes::{on_list, on_one, on_three, on_two};
use crate::operands::made_truth;
use crate::shape::{Shape, parts};
use crate::truth::Truth;
use mc_base::{List, NoMemory, Steps};
use mc_order::Book;
use mc_typing::TypedExpr;
use mc_values::Row;
use std::alloc::Global;

/// What comes of an expression in a row: lent where it stands there or in the expression, else
/// made.
#[cycle(walk)]
pub(crate) fn operand<'a, B: Book, W>(
    e: &'a TypedExpr,
    alloc: Global,
    row: &'a Row,
    aggregates: &'a Row,
    book: &B,
    work: &mut Steps<W>,
) -> Result<Held<'a>, EvalFault>
    requires fits { IsTrue (fits (B.count book.now) e.now) }
    requires row { All IsKept row.now }
    requires aggregates { All IsKept aggregates.now }
    ensures told { TellsHeld
        (value (place row.now aggregates.now (B.meaning book.now)) e.now) result }
    ensures kept { HoldsKept result }
    ensures work { GoesOn (has_like e.now) work.old work.new }
{
    match parts(e) {
        Shape::Leaf => leaf(&e.node, row, aggregates),
        Shape::One(x) => {
            let x = operand(x, alloc, row, aggregates, book, work);
            on_one(&e.node, alloc, book, x)
        }
        Shape::Two(x, y) => {
            let x = operand(x, alloc, row, aggregates, book, work);
            let y = operand(y, alloc, row, aggregates, book, work);
            on_two(&e.node, alloc, book, x, y, work)
        }
        Shape::Three(x, y, z) => {
            let x = operand(x, alloc, row, aggregates, book, work);
            let y = operand(y, alloc, row, aggregates, book, work);
            let z = operand(z, alloc, row, aggregates, book, work);
            on_three(&e.node, alloc, book, x, y, z)
        }
        Shape::Chain(or, xs) => chain(xs, or, alloc, row, aggregates, book, work),
        Shape::Listed(xs) => {
            let xs = gather(xs, alloc, row, aggregates, book, work);
            on_list(&e.node, e.ty, alloc, book, xs)
        }
    }
}

/// AND or OR of expressions, up to the first that decides.
#[cycle(walk)]
fn chain<'a, B: Book, W>(
    xs: &'a [TypedExpr],
    or: bool,
    alloc: Global,
    row: &'a Row,
    aggregates: &'a Row,
    book: &B,
    work: &mut Steps<W>,
) -> Result<Held<'a>, EvalFault>
    requires fits { All (λ x. IsTrue (fits (B.count book.now) x)) xs.now }
    requires row { All IsKept row.now }
    requires aggregates { All IsKept aggregates.now }
    ensures told { TellsHeld (told (chained or (truths_in
        (place row.now aggregates.now (B.meaning book.now)) xs.now))) result }
    ensures kept { HoldsKept result }
    ensures work { GoesOn (list_any has_like xs.now) work.old work.new }
{
    let mut so_far = Truth::Yes;
    for x in xs {
        match Truth::of_operand(operand(x, alloc, row, aggregates, book, work)) {
            Ok(it) => so_far = so_far.least(it.turned(or)),
            Err(NoMemory) => return Err(EvalFault::NoMemory),
        }
        if let Truth::No = so_far {
            return made_truth(Ok(Truth::No), or);
        }
    }
    made_truth(Ok(so_far), or)
}

/// What comes of expressions in order, up to the first fault.
#[cycle(walk)]
fn gather<'a, B: Book, W>(
    xs: &'a [TypedExpr],
    alloc: Global,
    row: &'a Row,
    aggregates: &'a Row,
    book: &B,
    work: &mut Steps<W>,
) -> Result<List<Held<'a>>, EvalFault>
    requires fits { All (λ x. IsTrue (fits (B.count book.now) x)) xs.now }
    requires row { All IsKept row.now }
    requires aggregates { All IsKept aggregates.now }
    ensures told { TellsAll (map (value (place row.now aggregates.now (B.meaning book.now))) xs.now)
        result }
    ensures kept { HoldAllKept result }
    ensures work { GoesOn (list_any has_like xs.now) work.old work.new }
{
    let mut held = List::new(alloc);
    for x in xs {
        match operand(x, alloc, row, aggregates, book, work) {
            Ok(value) => held.push(value)?,
            Err(fault) => return Err(fault),
        }
    }
    Ok(held)
}
