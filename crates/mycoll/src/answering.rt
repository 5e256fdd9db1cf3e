ghost use Rattle.mc_ast.specs.Texts.{HasUtf8Strings};
ghost use Rattle.mc_catalog.specs.Fits.{FitsCatalog};
ghost use Rattle.mc_catalog.specs.Lawful.{IsLawful};
ghost use Rattle.mc_exec.specs.Explained.{explained};
ghost use Rattle.mc_exec.specs.FullScan.{answer};
ghost use Rattle.mc_gather.specs.Indexed.{FitBook};
ghost use Rattle.mc_typing.specs.SoundStatements.{IsSoundStatement};
ghost use Rattle.mc_typing.specs.Statements.{typed_statement};
ghost use Rattle.mycoll.specs.Answering.{AnswersWritten, StopCause};
ghost use Rattle.mycoll.specs.Answers.{IsAnswer, query_said, scan_said, tree_said, typed_said};
ghost use Rattle.mycoll.specs.Costs.{
  Cost,
  Costs,
  IsCost,
  IsWithin,
  explain_cost,
  plan_cost,
  select_cost,
  tree_cost,
  typed_cost,
};
ghost use Rattle.mycoll.specs.SaidTexts.{HasTexts};
ghost use Rattle.mycoll.specs.World.{AreSound, state_of, world_of};
ghost use Rattle.mc_token.specs.Statements.{statements};
ghost use Rattle.std.specs.Prelude.{◌≡◌, ◌≤◌, ◌<◌, ◌^◌, ℕ, IfErr, IfOk, IsUtf8, length};

use crate::messages::out_of_range;
use crate::output::{Stopped, write_said};
use crate::reading::read_statement;
use crate::said::Said;
use crate::unanswered::Unanswered;
use mc_ast::Statement;
use mc_base::{NoMemory, Sink, Span, Steps, Text};
use mc_exec::{ExecFault, Tables, explain, select};
use mc_order::Book;
use mc_parse::outcomes_are_unique;
use mc_token::next_statement;
use mc_typing::{Session, TypeFault, Typed, type_statement};
use std::alloc::Global;

/// What a statement whose rows are answered is answered with.
fn rows_said<B: Book, W, L>(
    alloc: Global,
    tables: &Tables<L>,
    book: &B,
    q: &Typed,
    work: &mut Steps<W>,
    steps: &mut Steps<L>,
) -> Result<Said, NoMemory>
    requires lawful { IsLawful tables.now.catalog }
    requires fits { FitsCatalog tables.now.catalog (B.count book.now)
        (λ id. (B.meaning book.now id).charset) }
    requires sound { IsSoundStatement tables.now.catalog q.now }
    requires book { FitBook tables.now.catalog (B.meaning book.now) tables.now.rows
        tables.now.indexes }
    ensures is { IfOk result (λ said. said ≡ scan_said
        (answer tables.now.catalog (B.meaning book.now) tables.now.rows q.now)) }
    ensures texts { IfOk result HasTexts }
    ensures within { IsWithin
        (select_cost tables.now.catalog (B.meaning book.now) tables.now.rows q.now)
        steps.old steps.new work.old work.new }
    ensures fetched { steps.old ≤ steps.new }
    ensures compared { work.old ≤ work.new }
{
    match select(alloc, q, tables, book, work, steps) {
        Ok(answer) => Ok(Said::Table(answer)),
        Err(ExecFault::OutOfRange) => Ok(Said::Refused(out_of_range(alloc)?)),
        Err(ExecFault::NoMemory) => Err(NoMemory),
    }
}

/// What a statement is answered with whose plan is.
fn plan_said<B: Book, W, L>(
    alloc: Global,
    tables: &Tables<L>,
    book: &B,
    q: &Typed,
    work: &mut Steps<W>,
) -> Result<Said, NoMemory>
    requires lawful { IsLawful tables.now.catalog }
    requires fits { FitsCatalog tables.now.catalog (B.count book.now)
        (λ id. (B.meaning book.now id).charset) }
    requires sound { IsSoundStatement tables.now.catalog q.now }
    requires book { FitBook tables.now.catalog (B.meaning book.now) tables.now.rows
        tables.now.indexes }
    ensures is { IfOk result (λ said. said ≡ Said.Table
        (explained tables.now.catalog (B.meaning book.now) tables.now.rows q.now)) }
    ensures texts { IfOk result HasTexts }
    ensures within { (fetched : ℕ) → IsWithin
        (explain_cost tables.now.catalog (B.meaning book.now) tables.now.rows q.now)
        fetched fetched work.old work.new }
    ensures compared { work.old ≤ work.new }
{
    match explain(alloc, q, tables, book, work) {
        Ok(answer) => Ok(Said::Table(answer)),
        Err(NoMemory) => Err(NoMemory),
    }
}

/// What a typed statement is answered with: with EXPLAIN its plan, else its rows.
fn query_said<B: Book, W, L>(
    alloc: Global,
    tables: &Tables<L>,
    book: &B,
    q: &Typed,
    work: &mut Steps<W>,
    steps: &mut Steps<L>,
) -> Result<Said, NoMemory>
    requires lawful { IsLawful tables.now.catalog }
    requires fits { FitsCatalog tables.now.catalog (B.count book.now)
        (λ id. (B.meaning book.now id).charset) }
    requires sound { IsSoundStatement tables.now.catalog q.now }
    requires book { FitBook tables.now.catalog (B.meaning book.now) tables.now.rows
        tables.now.indexes }
    ensures is { IfOk result (λ said. said ≡ query_said
        tables.now.catalog (B.meaning book.now) tables.now.rows q.now) }
    ensures texts { IfOk result HasTexts }
    ensures within { IsWithin
        (plan_cost tables.now.catalog (B.meaning book.now) tables.now.rows q.now)
        steps.old steps.new work.old work.new }
    ensures fetched { steps.old ≤ steps.new }
    ensures compared { work.old ≤ work.new }
{
    if q.explain {
        plan_said(alloc, tables, book, q, work)
    } else {
        rows_said(alloc, tables, book, q, work, steps)
    }
}

/// What a tree is answered with, in a session.
fn typed_said<B: Book, W, L>(
    alloc: Global,
    tables: &Tables<L>,
    book: &B,
    session: &Session,
    script: &[u8],
    tree: &Statement,
    work: &mut Steps<W>,
    steps: &mut Steps<L>,
) -> Result<Said, NoMemory>
    requires texts { HasUtf8Strings tree.now }
    requires sound { AreSound (world_of tables.now.catalog (B.meaning book.now))
        (B.count book.now) (state_of session.now tables.now.rows) }
    requires book { FitBook tables.now.catalog (B.meaning book.now) tables.now.rows
        tables.now.indexes }
    ensures is { IfOk result (λ said. said
        ≡ typed_said (world_of tables.now.catalog (B.meaning book.now))
        (state_of session.now tables.now.rows)
        (typed_statement script.now tree.now tables.now.catalog session.now)) }
    ensures texts { IfOk result HasTexts }
    ensures within { IsWithin
        (typed_cost (world_of tables.now.catalog (B.meaning book.now))
        (state_of session.now tables.now.rows)
        (typed_statement script.now tree.now tables.now.catalog session.now))
        steps.old steps.new work.old work.new }
    ensures fetched { steps.old ≤ steps.new }
    ensures compared { work.old ≤ work.new }
{
    match type_statement(alloc, tree, script, tables.catalog(), session) {
        Ok(typed) => query_said(alloc, tables, book, &typed, work, steps),
        Err(TypeFault::Refused(refusal)) => Ok(Said::Refused(refusal)),
        Err(TypeFault::NoMemory) => Err(NoMemory),
    }
}

/// What a tree is answered with, in a session that it may change. Without memory the session stays
/// as it was.
#[tactic(auto, unfolding(crate::specs::Answers::tree_said, crate::specs::Costs::tree_cost))]
fn tree_said<B: Book, W, L>(
    alloc: Global,
    tables: &Tables<L>,
    book: &B,
    session: &mut Session,
    script: &[u8],
    tree: &Statement,
    work: &mut Steps<W>,
    steps: &mut Steps<L>,
) -> Result<Said, NoMemory>
    requires texts { HasUtf8Strings tree.now }
    requires sound { AreSound (world_of tables.now.catalog (B.meaning book.now))
        (B.count book.now) (state_of session.old tables.now.rows) }
    requires book { FitBook tables.now.catalog (B.meaning book.now) tables.now.rows
        tables.now.indexes }
    ensures is { IfOk result (λ said. (said, state_of session.new tables.now.rows)
        ≡ tree_said (world_of tables.now.catalog (B.meaning book.now))
        (state_of session.old tables.now.rows) script.now tree.now) }
    ensures texts { IfOk result HasTexts }
    ensures within { IsWithin
        (tree_cost (world_of tables.now.catalog (B.meaning book.now))
        (state_of session.old tables.now.rows) script.now tree.now)
        steps.old steps.new work.old work.new }
    ensures fetched { steps.old ≤ steps.new }
    ensures compared { work.old ≤ work.new }
    ensures kept { session.new ≡ session.old }
{
    typed_said(alloc, tables, book, session, script, tree, work, steps)
}

/// What a statement of a script is answered with, in a session that it may change. Without memory
/// the session stays as it was.
fn answer_statement<B: Book, W, L>(
    alloc: Global,
    tables: &Tables<L>,
    book: &B,
    session: &mut Session,
    script: &[u8],
    statement: Span,
    work: &mut Steps<W>,
    steps: &mut Steps<L>,
) -> Result<Said, NoMemory>
    requires in_order { statement.start ≤ statement.end }
    requires within { statement.end ≤ length script.now }
    requires utf8 { IsUtf8 script.now }
    requires sound { AreSound (world_of tables.now.catalog (B.meaning book.now))
        (B.count book.now) (state_of session.old tables.now.rows) }
    requires book { FitBook tables.now.catalog (B.meaning book.now) tables.now.rows
        tables.now.indexes }
    ensures is { IfOk result (λ said. IsAnswer
        (world_of tables.now.catalog (B.meaning book.now))
        (state_of session.old tables.now.rows) script.now statement said
        (state_of session.new tables.now.rows)) }
    ensures texts { IfOk result HasTexts }
    ensures within { (cost : Cost) → IsCost (world_of tables.now.catalog (B.meaning book.now))
        (state_of session.old tables.now.rows) script.now statement cost
        → IsWithin cost steps.old steps.new work.old work.new }
    ensures fetched { steps.old ≤ steps.new }
    ensures compared { work.old ≤ work.new }
    ensures sound { AreSound (world_of tables.now.catalog (B.meaning book.now))
        (B.count book.now) (state_of session.new tables.now.rows) }
    ensures kept { IfErr result (λ _. session.new ≡ session.old) }
{
    outcomes_are_unique();
    match read_statement(alloc, script, statement) {
        Ok(tree) => {
            let said = tree_said(alloc, tables, book, session, script, &tree, work, steps);
            drop(tree);
            said
        }
        Err(Unanswered::Refused(refusal)) => Ok(Said::Refused(refusal)),
        Err(Unanswered::NoMemory) => Err(NoMemory),
    }
}

/// Answers the statements of a script in turn over the rows of tables, each in the session that the
/// ones before it left and by at most one call of the sink, and tells whether some were refused.
/// Each row that is fetched ticks `steps`; seeks in indexes and LIKE tick `work`.
pub fn answer_script<B: Book, S: Sink, W, L>(
    alloc: Global,
    tables: &Tables<L>,
    book: &B,
    session: &mut Session,
    script: &[u8],
    out: &mut S,
    work: &mut Steps<W>,
    steps: &mut Steps<L>,
) -> Result<bool, Stopped>
    requires short { length script.now < 2 ^ 32 }
    requires utf8 { IsUtf8 script.now }
    requires sound { AreSound (world_of tables.now.catalog (B.meaning book.now))
        (B.count book.now) (state_of session.old tables.now.rows) }
    requires book { FitBook tables.now.catalog (B.meaning book.now) tables.now.rows
        tables.now.indexes }
    ensures later { S.faults out.old ≤ S.faults out.new }
    ensures told { AnswersWritten (world_of tables.now.catalog (B.meaning book.now))
        (state_of session.old tables.now.rows) script.now result
        (S.written out.old) (S.written out.new) }
    ensures within { (cost : Cost) → Costs (world_of tables.now.catalog (B.meaning book.now))
        (state_of session.old tables.now.rows) script.now (statements script.now 0) cost
        → IsWithin cost steps.old steps.new work.old work.new }
    ensures fetched { steps.old ≤ steps.new }
    ensures compared { work.old ≤ work.new }
    ensures cause { StopCause result (S.faults out.old) (S.faults out.new) }
{
    outcomes_are_unique();
    let mut lines = Text::new(alloc);
    let mut refused = false;
    let mut from = 0;
    while let Some((statement, next)) = next_statement(script, from) {
        let said = answer_statement(alloc, tables, book, session, script, statement, work, steps)?;
        refused |= write_said(alloc, said, &mut lines, out)?;
        from = next;
    }
    Ok(refused)
}
