ghost use Rattle.mc_eval.specs.Comparisons.{compared};
ghost use Rattle.mc_eval.specs.Fit.{is_in_book};
ghost use Rattle.mc_eval.specs.Held.{HoldsKept, TellsHeld};
ghost use Rattle.mc_eval.specs.Node.{within_ends};
ghost use Rattle.mc_eval.specs.Outcomes.{IsKept, Outcome, of_one};
ghost use Rattle.mc_eval.specs.Truths.{all_of, told, truth};
ghost use Rattle.mc_eval.specs.declared.truth.Truth.{Truth as TruthValue};
ghost use Rattle.std.specs.Prelude.{◌≡◌, [], ◌∷◌, IfOk, IsTrue};

use crate::comparisons::compared;
use crate::fault::EvalFault;
use crate::held::Held;
use crate::truth::Truth;
use mc_ast::CmpOp;
use mc_base::NoMemory;
use mc_charset::CollId;
use mc_order::Book;
use mc_values::Value;
use std::alloc::Global;

/// A value compared with what came of an end.
fn end<B: Book>(
    alloc: Global,
    book: &B,
    coll: Option<CollId>,
    op: CmpOp,
    it: &Value,
    end: Result<Held<'_>, EvalFault>,
) -> Result<Truth, NoMemory>
    requires in_book { IsTrue (is_in_book (B.count book.now) coll) }
    requires it { IsKept it.now }
    requires end { HoldsKept end }
    ensures { (o : Outcome) → TellsHeld o end.entry → IfOk result (λ is. is
        ≡ truth (of_one (λ b. told (compared (B.meaning book.now) coll op it.now b)) o)) }
{
    match end {
        Ok(held) => compared(alloc, book, coll, op, it, held.get()),
        Err(EvalFault::OutOfRange) => Ok(Truth::Faulty),
        Err(EvalFault::NoMemory) => Err(NoMemory),
    }
}

/// AND of two truth values.
#[tactic(auto, using(crate::proofs::Chains::least_yes))]
fn both(one: Result<Truth, NoMemory>, other: Result<Truth, NoMemory>) -> Result<Truth, NoMemory>
    ensures { (a b : TruthValue) → IfOk one (λ is. is ≡ a) → IfOk other (λ is. is ≡ b)
        → IfOk result (λ is. is ≡ all_of (a ∷ b ∷ [])) }
{
    match one {
        Ok(one) => match other {
            Ok(other) => Ok(one.least(other)),
            Err(NoMemory) => Err(NoMemory),
        },
        Err(NoMemory) => Err(NoMemory),
    }
}

/// BETWEEN of what came of its operands.
pub(crate) fn ends<B: Book>(
    alloc: Global,
    book: &B,
    coll: Option<CollId>,
    it: Result<Held<'_>, EvalFault>,
    low: Result<Held<'_>, EvalFault>,
    high: Result<Held<'_>, EvalFault>,
) -> Result<Truth, NoMemory>
    requires in_book { IsTrue (is_in_book (B.count book.now) coll) }
    requires it { HoldsKept it }
    requires low { HoldsKept low }
    requires high { HoldsKept high }
    ensures { (x l h : Outcome) → TellsHeld x it.entry → TellsHeld l low.entry
        → TellsHeld h high.entry
        → IfOk result (λ is. is ≡ within_ends (B.meaning book.now) coll x l h) }
{
    match it {
        Ok(it) => both(
            end(alloc, book, coll, CmpOp::Ge, it.get(), low),
            end(alloc, book, coll, CmpOp::Le, it.get(), high),
        ),
        Err(EvalFault::OutOfRange) => Ok(Truth::Faulty),
        Err(EvalFault::NoMemory) => Err(NoMemory),
    }
}
