ghost use Rattle.mc_charset.specs.Chars.{IsWellFormed};
ghost use Rattle.mc_eval.specs.Fit.{is_in_book};
ghost use Rattle.mc_eval.specs.Held.{HoldsKept, TellsHeld};
ghost use Rattle.mc_eval.specs.Matches.{liked, liked_by};
ghost use Rattle.mc_eval.specs.Outcomes.{Outcome, of_two};
ghost use Rattle.mc_eval.specs.Truths.{told, turned};
ghost use Rattle.mc_values.specs.Values.{IsTextOfSet};
ghost use Rattle.mc_values.specs.declared.value.Value.TheVariants as value;
ghost use Rattle.std.specs.Prelude.{◌≡◌, ◌<◌, ◌≤◌, IfOk, IsTrue};

use crate::fault::EvalFault;
use crate::held::Held;
use crate::operands::made_truth;
use crate::texts::in_set;
use crate::truth::Truth;
use mc_base::{NoMemory, Steps, Text};
use mc_charset::{Charset, CollId};
use mc_like::compile;
use mc_order::{Book, Collation};
use mc_values::Value;
use std::alloc::Global;

/// Whether a text matches a pattern, in the set of a collation.
fn liked_by<B: Book, W>(
    alloc: Global,
    book: &B,
    id: CollId,
    escape: Option<u32>,
    set: Charset,
    text: &Text,
    pattern_set: Charset,
    pattern: &Text,
    work: &mut Steps<W>,
) -> Result<Truth, NoMemory>
    requires in_book { id.0 < B.count book.now }
    requires text { IsWellFormed set text.now }
    requires pattern { IsWellFormed pattern_set pattern.now }
    ensures told { IfOk result (λ it. it ≡ liked_by (B.meaning book.now id.0) escape
        (value.Str set text.now) (value.Str pattern_set pattern.now)) }
    ensures later { work.old ≤ work.new }
{
    let collation = book.by_id(id);
    let to = collation.charset();
    let text = in_set(alloc, to, set, text)?;
    let pattern = in_set(alloc, to, pattern_set, pattern)?;
    let compiled = compile(alloc, to, pattern.get().as_slice(), escape)?;
    let matches = compiled.matches(collation, text.get().as_slice(), work);
    Ok(Truth::known(matches))
}

/// LIKE of two values.
fn liked<B: Book, W>(
    alloc: Global,
    book: &B,
    coll: Option<CollId>,
    escape: Option<u32>,
    one: &Value,
    other: &Value,
    work: &mut Steps<W>,
) -> Result<Truth, NoMemory>
    requires in_book { IsTrue (is_in_book (B.count book.now) coll) }
    requires one { IsTextOfSet one.now }
    requires other { IsTextOfSet other.now }
    ensures told { IfOk result (λ it.
        it ≡ liked (B.meaning book.now) coll escape one.now other.now) }
    ensures later { work.old ≤ work.new }
{
    match coll {
        None => Ok(Truth::Unknown),
        Some(id) => match (one, other) {
            (
                Value::Str { charset, text },
                Value::Str {
                    charset: set,
                    text: pattern,
                },
            ) => liked_by(alloc, book, id, escape, *charset, text, *set, pattern, work),
            _ => Ok(Truth::Unknown),
        },
    }
}

/// LIKE, or NOT LIKE, of what came of two operands.
pub(crate) fn matched<'a, B: Book, W>(
    alloc: Global,
    book: &B,
    coll: Option<CollId>,
    escape: Option<u32>,
    negated: bool,
    one: Result<Held<'_>, EvalFault>,
    other: Result<Held<'_>, EvalFault>,
    work: &mut Steps<W>,
) -> Result<Held<'a>, EvalFault>
    requires in_book { IsTrue (is_in_book (B.count book.now) coll) }
    requires one { HoldsKept one }
    requires other { HoldsKept other }
    ensures told { (x y : Outcome) → TellsHeld x one.entry → TellsHeld y other.entry →
        TellsHeld (of_two (λ a b. told (turned negated
        (liked (B.meaning book.now) coll escape a b))) x y) result }
    ensures kept { HoldsKept result }
    ensures later { work.old ≤ work.new }
{
    match one {
        Ok(one) => match other {
            Ok(other) => made_truth(
                liked(alloc, book, coll, escape, one.get(), other.get(), work),
                negated,
            ),
            Err(fault) => Err(fault),
        },
        Err(fault) => Err(fault),
    }
}
