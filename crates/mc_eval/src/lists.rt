ghost use Rattle.mc_ast.specs.declared.operators.CmpOp.TheVariants.{Eq};
ghost use Rattle.mc_eval.specs.Comparisons.{is_among};
ghost use Rattle.mc_eval.specs.Fit.{is_in_book};
ghost use Rattle.mc_eval.specs.Held.{AreKept, HoldAllKept, HoldsKept, TellsAll, TellsHeld};
ghost use Rattle.mc_eval.specs.Held.{held_values};
ghost use Rattle.mc_eval.specs.Node.{among};
ghost use Rattle.mc_eval.specs.Outcomes.{IsKept, Outcome, of_all};
ghost use Rattle.mc_eval.specs.Truths.{told, turned};
ghost use Rattle.std.specs.Prelude.{◌≡◌, IfOk, IsTrue, List};

use crate::comparisons::compared;
use crate::fault::EvalFault;
use crate::held::Held;
use crate::operands::made_truth;
use crate::truth::Truth;
use mc_ast::CmpOp;
use mc_base::{List, NoMemory};
use mc_charset::CollId;
use mc_order::Book;
use mc_values::Value;
use std::alloc::Global;

/// IN: whether a value equals one of the members, up to the first that it equals.
fn is_among<B: Book>(
    alloc: Global,
    book: &B,
    coll: Option<CollId>,
    it: &Value,
    members: &[Held<'_>],
) -> Result<Truth, NoMemory>
    requires in_book { IsTrue (is_in_book (B.count book.now) coll) }
    requires it { IsKept it.now }
    requires members { AreKept members.now }
    ensures { IfOk result (λ is.
        is ≡ is_among (B.meaning book.now) coll it.now (held_values members.now)) }
{
    let mut differs = Truth::Yes;
    for member in members {
        match compared(alloc, book, coll, CmpOp::Eq, it, member.get()) {
            Ok(equals) => differs = differs.least(equals.opposite()),
            Err(NoMemory) => return Err(NoMemory),
        }
        if let Truth::No = differs {
            return Ok(Truth::Yes);
        }
    }
    Ok(differs.opposite())
}

/// IN over its operands, of which the first is sought among the others.
fn among<B: Book>(
    alloc: Global,
    book: &B,
    coll: Option<CollId>,
    values: &[Held<'_>],
) -> Result<Truth, NoMemory>
    requires in_book { IsTrue (is_in_book (B.count book.now) coll) }
    requires kept { AreKept values.now }
    ensures { IfOk result (λ is.
        is ≡ among (B.meaning book.now) coll (held_values values.now)) }
{
    match values.split_first() {
        Some((it, members)) => is_among(alloc, book, coll, it.get(), members),
        None => Ok(Truth::Unknown),
    }
}

/// IN, or NOT IN, of what came of its operands.
pub(crate) fn found<'a, B: Book>(
    alloc: Global,
    book: &B,
    coll: Option<CollId>,
    negated: bool,
    operands: Result<List<Held<'_>>, EvalFault>,
) -> Result<Held<'a>, EvalFault>
    requires in_book { IsTrue (is_in_book (B.count book.now) coll) }
    requires kept { HoldAllKept operands }
    ensures told { (os : List Outcome) → TellsAll os operands.entry → TellsHeld (of_all
        (λ values. told (turned negated (among (B.meaning book.now) coll values))) os) result }
    ensures kept { HoldsKept result }
{
    match operands {
        Ok(values) => made_truth(among(alloc, book, coll, values.as_slice()), negated),
        Err(fault) => Err(fault),
    }
}
