ghost use Rattle.mc_eval.specs.Acceptance.{TellsAcceptance, acceptance};
ghost use Rattle.mc_eval.specs.Fit.{fits, has_like};
ghost use Rattle.mc_eval.specs.Node.{place};
ghost use Rattle.mc_eval.specs.Outcomes.{IsKept};
ghost use Rattle.mc_eval.specs.Prepared.{ArePrepared, IsPrepared, prepared_exprs};
ghost use Rattle.mc_eval.specs.Truths.{truth};
ghost use Rattle.mc_eval.specs.Value.{value};
ghost use Rattle.mc_eval.specs.Walk.{GoesOn};
ghost use Rattle.std.specs.List.{list_any};
ghost use Rattle.std.specs.Prelude.{◌≡◌, ◌≤◌, [], All, IfOk, IsTrue, false};

use crate::fault::EvalFault;
use crate::forms::{Form, form_of};
use crate::truth::Truth;
use crate::walk::operand;
use mc_base::{List, NoMemory, Steps};
use mc_order::Book;
use mc_typing::TypedExpr;
use mc_values::Row;
use std::alloc::Global;
use std::marker::Model;

/// A conjunct of a WHERE made ready for many rows. Contracts see the expression that it stands for,
/// and what is kept beside it.
#[derive(Drop)]
pub struct Prepared<'a> {
    expr: &'a TypedExpr,
    form: Form<'a>,
}

impl<'a> Model for Prepared<'a> {
    ghost use Rattle.mc_eval.specs.Prepared.{Conjunct};
    ghost use Rattle.mc_typing.specs.contracts.typed.Node as node;
    ghost use Rattle.std.specs.Coded.{codes};

    ghost Value = { Conjunct };

    ghost coded = { Prim.hlevel (codes, node.the_row.coded) };

    ghost view = { λ it. record { expr = it.expr.now; form = it.form } };
}

impl<'a> Prepared<'a> {
    /// Its truth in a row.
    fn truth<B: Book, W>(
        &self,
        alloc: Global,
        row: &Row,
        aggregates: &Row,
        book: &B,
        work: &mut Steps<W>,
    ) -> Result<Truth, NoMemory>
        requires fits { IsTrue (fits (B.count book.now) self.now.expr) }
        requires ready { IsPrepared (B.meaning book.now) self.now }
        requires row { All IsKept row.now }
        requires aggregates { All IsKept aggregates.now }
        ensures told { IfOk result (λ it. it ≡ truth
            (value (place row.now aggregates.now (B.meaning book.now)) self.now.expr)) }
        ensures work { GoesOn (has_like self.now.expr) work.old work.new }
    {
        match &self.form {
            Form::Compared(it) => it.truth(alloc, row, book),
            Form::Matched(it) => it.truth(alloc, row, book, work),
            Form::Walked => {
                Truth::of_operand(operand(self.expr, alloc, row, aggregates, book, work))
            }
        }
    }
}

/// The conjuncts of a WHERE made ready for many rows: texts that columns are compared with are
/// converted, and patterns that they are matched with are compiled.
pub fn prepare<'a, B: Book>(
    alloc: Global,
    conjuncts: &'a List<TypedExpr>,
    book: &B,
) -> Result<List<Prepared<'a>>, NoMemory>
    requires fits { All (λ e. IsTrue (fits (B.count book.now) e)) conjuncts.now }
    ensures exprs { IfOk result (λ prepared. prepared_exprs prepared ≡ conjuncts.now) }
    ensures ready { IfOk result (λ prepared. ArePrepared (B.meaning book.now) prepared) }
{
    let mut prepared = List::new(alloc);
    for expr in conjuncts.as_slice() {
        match form_of(alloc, expr, book) {
            Ok(form) => prepared.push(Prepared { expr, form })?,
            Err(NoMemory) => return Err(NoMemory),
        }
    }
    Ok(prepared)
}

/// Whether conjuncts accept a row, up to the first that does not.
fn accepted<B: Book, W>(
    conjuncts: &[Prepared<'_>],
    alloc: Global,
    row: &Row,
    aggregates: &Row,
    book: &B,
    work: &mut Steps<W>,
) -> Result<bool, EvalFault>
    requires fits { All (λ e. IsTrue (fits (B.count book.now) e)) (prepared_exprs conjuncts.now) }
    requires ready { ArePrepared (B.meaning book.now) conjuncts.now }
    requires row { All IsKept row.now }
    requires aggregates { All IsKept aggregates.now }
    ensures told { TellsAcceptance (acceptance (place row.now aggregates.now (B.meaning book.now))
        (prepared_exprs conjuncts.now)) result }
    ensures work { GoesOn (list_any has_like (prepared_exprs conjuncts.now)) work.old work.new }
{
    let mut so_far = Truth::Yes;
    for conjunct in conjuncts {
        match conjunct.truth(alloc, row, aggregates, book, work) {
            Ok(it) => so_far = so_far.least(it.firm()),
            Err(NoMemory) => return Err(EvalFault::NoMemory),
        }
        if let Truth::No = so_far {
            return Ok(false);
        }
    }
    so_far.accepts()
}

/// Whether a list of prepared conjuncts accepts a row: what [`accepts`](crate::accepts) tells of
/// the expressions that they stand for.
pub fn accepts_prepared<B: Book, W>(
    alloc: Global,
    conjuncts: &List<Prepared<'_>>,
    row: &Row,
    book: &B,
    work: &mut Steps<W>,
) -> Result<bool, EvalFault>
    requires fits { All (λ e. IsTrue (fits (B.count book.now) e)) (prepared_exprs conjuncts.now) }
    requires ready { ArePrepared (B.meaning book.now) conjuncts.now }
    requires row { All IsKept row.now }
    ensures told { TellsAcceptance (acceptance (place row.now [] (B.meaning book.now))
        (prepared_exprs conjuncts.now)) result }
    ensures still { list_any has_like (prepared_exprs conjuncts.now) ≡ false
        → work.new ≡ work.old }
    ensures later { work.old ≤ work.new }
{
    let aggregates = List::new(alloc);
    accepted(conjuncts.as_slice(), alloc, row, &aggregates, book, work)
}
