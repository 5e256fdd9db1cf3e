ghost use Rattle.mc_gather.specs.Tables.{AreTablesOf};
ghost use Rattle.std.specs.Option.{option_copied};
ghost use Rattle.std.specs.Prelude.{◌≡◌, ◌≤◌, IfSome};
ghost use Rattle.mycoll.specs.Answering.{AnswersWritten, Written, StopCause};
ghost use Rattle.mycoll.specs.Opened.{IsSound, accepted_of};
ghost use Rattle.mycoll.specs.Outcome.{refused_line};
ghost use Rattle.mycoll.specs.Run.{
  accepted_state,
  accepted_world,
  task,
  files_task,
  answered_status,
  line_status,
  HasWritten,
  IsComplete,
  IsSpentOn,
  ReadCause,
  WriteCause,
  FitsWords,
};
ghost use Rattle.mycoll.specs.Run.Task.{script_task};
ghost use Rattle.mycoll.specs.Words.{words_form};
ghost use Rattle.mycoll.specs.Words.WordsForm.{file_words};

use crate::answering::answer_script;
use crate::opening::{Opened, open_files};
use crate::output::{Stopped, write_bytes};
use crate::refused::refused_text;
use crate::status::Status;
use crate::words::{FileNames, named_files};
use mc_base::{FileFault, FileRefusal, Files, List, NoMemory, Sink, Steps, Text};
use mc_exec::build_tables;
use mc_rows::Table;
use mc_typing::Session;
use std::alloc::Global;

const USAGE: &[u8] = b"usage: mycoll [CATALOG] SCRIPT | --make N\n";

/// How a run ends that answered a script so.
fn answered_status(answered: Result<bool, Stopped>) -> Status
    ensures { result ≡ answered_status answered }
{
    match answered {
        Ok(true) => Status::SomeRefused,
        Ok(false) => Status::Done,
        Err(Stopped::Fault) => Status::WriteFault,
        Err(Stopped::NoMemory) => Status::NoMemory,
    }
}

/// How a run ends that wrote its one line so.
fn line_status(status: Status, written: Result<(), Stopped>) -> Status
    ensures { result ≡ line_status status written }
{
    match written {
        Ok(()) => status,
        Err(Stopped::Fault) => Status::WriteFault,
        Err(Stopped::NoMemory) => Status::NoMemory,
    }
}

/// Writes the line of a refused file.
fn write_refusal<S: Sink>(alloc: Global, refusal: &FileRefusal, out: &mut S) -> Result<(), Stopped>
    ensures later { S.faults out.old ≤ S.faults out.new }
    ensures told { Written (refused_line refusal.now) result
        (S.written out.old) (S.written out.new) }
    ensures cause { StopCause result (S.faults out.old) (S.faults out.new) }
{
    match refused_text(alloc, refusal) {
        Ok(line) => write_bytes(out, line.as_slice()),
        Err(NoMemory) => Err(Stopped::NoMemory),
    }
}

/// Answers the script that was opened, by the collations and over the rows opened with it, and
/// through the indexes that are built first.
fn answer_opened<S: Sink, W, L>(
    alloc: Global,
    opened: Opened,
    rows: List<Table<L>>,
    out: &mut S,
    work: &mut Steps<W>,
    steps: &mut Steps<L>,
) -> Result<bool, Stopped>
    requires sound { IsSound opened }
    requires rows { AreTablesOf opened.catalog rows }
    ensures later { S.faults out.old ≤ S.faults out.new }
    ensures told { let accepted = accepted_of (opened, rows) in
        AnswersWritten (accepted_world accepted) (accepted_state accepted) accepted.script result
        (S.written out.old) (S.written out.new) }
    ensures spent { let accepted = accepted_of (opened, rows) in IsSpentOn
        (script_task (accepted_world accepted) (accepted_state accepted) accepted.script)
        steps.old steps.new work.old work.new }
    ensures fetched { steps.old ≤ steps.new }
    ensures compared { work.old ≤ work.new }
    ensures cause { StopCause result (S.faults out.old) (S.faults out.new) }
{
    let Opened {
        catalog,
        script,
        book,
    } = opened;
    let mut session = Session {
        connection: catalog.connection,
    };
    match build_tables(alloc, catalog, rows, &book, steps) {
        Ok(tables) => answer_script(
            alloc,
            &tables,
            &book,
            &mut session,
            script.as_slice(),
            out,
            work,
            steps,
        ),
        Err(NoMemory) => Err(Stopped::NoMemory),
    }
}

/// Answers the script of these files.
fn run_files<F: Files, S: Sink, W, L>(
    alloc: Global,
    named: FileNames<'_>,
    files: &mut F,
    out: &mut S,
    work: &mut Steps<W>,
    steps: &mut Steps<L>,
) -> Status
    ensures kept { F.contents files.new ≡ F.contents files.old }
    ensures told { IfSome (F.contents files.old) (λ told. HasWritten
        (files_task told (record {
          catalog = option_copied named.entry.catalog;
          script = named.entry.script.now;
        }))
        result (S.written out.old) (S.written out.new)) }
    ensures spent { IfSome (F.contents files.old) (λ told. IsSpentOn
        (files_task told (record {
          catalog = option_copied named.entry.catalog;
          script = named.entry.script.now;
        }))
        steps.old steps.new work.old work.new) }
    ensures fetched { steps.old ≤ steps.new }
    ensures compared { work.old ≤ work.new }
    ensures read { ReadCause result (F.faults files.old) (F.faults files.new)
        (S.written out.old) (S.written out.new) }
    ensures write { WriteCause result (S.faults out.old) (S.faults out.new) }
    ensures form { FitsWords
        (file_words (record {
          catalog = option_copied named.entry.catalog;
          script = named.entry.script.now;
        })) result }
{
    match open_files(alloc, files, named) {
        Ok((opened, rows)) => {
            answered_status(answer_opened(alloc, opened, rows, out, work, steps))
        }
        Err(FileFault::Refused(refusal)) => {
            line_status(Status::FilesRefused, write_refusal(alloc, &refusal, out))
        }
        Err(FileFault::Fault) => Status::ReadFault,
        Err(FileFault::NoMemory) => Status::NoMemory,
    }
}

/// Answers the words after the program's name. Words of no form are answered with the usage line.
#[tactic(auto, unfolding(crate::specs::Run::task))]
fn run_words<F: Files, S: Sink, W, L>(
    alloc: Global,
    words: &[Text],
    files: &mut F,
    out: &mut S,
    work: &mut Steps<W>,
    steps: &mut Steps<L>,
) -> Status
    ensures kept { F.contents files.new ≡ F.contents files.old }
    ensures told { IfSome (task (F.contents files.old) words.now) (λ asked.
        HasWritten asked result (S.written out.old) (S.written out.new)) }
    ensures spent { IfSome (task (F.contents files.old) words.now) (λ asked.
        IsSpentOn asked steps.old steps.new work.old work.new) }
    ensures fetched { steps.old ≤ steps.new }
    ensures compared { work.old ≤ work.new }
    ensures read { ReadCause result (F.faults files.old) (F.faults files.new)
        (S.written out.old) (S.written out.new) }
    ensures write { WriteCause result (S.faults out.old) (S.faults out.new) }
    ensures form { FitsWords (words_form words.now) result }
{
    match named_files(words) {
        Some(named) => run_files(alloc, named, files, out, work, steps),
        None => line_status(Status::Usage, write_bytes(out, USAGE)),
    }
}

/// Answers the words after the program's name: reads the files that they name through `files`, and
/// writes the script's answers to `out`. It ends with the status of what it has written. Each row
/// that is fetched ticks `steps`: once for each index of its table, before the first answer, and
/// then once for each SELECT whose plan reads it; EXPLAIN fetches none. Comparisons of keys in seeks
/// and of characters for LIKE tick `work`.
///
/// The words are a script, or a catalog and a script. The catalog is opened first, then the script,
/// then the files of each declared collation and those of the tables, in the order of the catalog;
/// each is at most 16,777,216 bytes and is parsed before the next one is opened, and the first that
/// is refused ends the run with its line. The script is UTF-8. Its statements are answered in
/// order, each by one call of the sink; a refused one is answered with its `ERROR` line, and the
/// run goes on. Without a catalog there are no tables, the collations are the built-in ones, and the
/// connection's is `utf8mb4_bin`. Indexes change no answer but that of EXPLAIN (MySQL 8.0 manual,
/// 8.2.1.2, 10.8.5, 10.10.1 and 13.2.10).
pub fn run<F: Files, S: Sink, W, L>(
    alloc: Global,
    words: &[Text],
    files: &mut F,
    out: &mut S,
    work: &mut Steps<W>,
    steps: &mut Steps<L>,
) -> Status
    // The bytes written are the task's: for accepted files the statements' answers, in order, of
    // which there is one list (`answers_law`).
    ensures told { IfSome (task (F.contents files.old) words.now) (λ asked.
        HasWritten asked result (S.written out.old) (S.written out.new)) }
    // Where neither count rose, the task was done, unless memory ran out.
    ensures complete { IfSome (task (F.contents files.old) words.now) (λ asked.
        IsComplete asked result (F.faults files.old) (F.faults files.new)
        (S.faults out.old) (S.faults out.new)) }
    ensures read { ReadCause result (F.faults files.old) (F.faults files.new)
        (S.written out.old) (S.written out.new) }
    ensures write { WriteCause result (S.faults out.old) (S.faults out.new) }
    ensures form { FitsWords (words_form words.now) result }
    ensures kept { F.contents files.new ≡ F.contents files.old }
    // On every exit the rows fetched are at most the sum, over all tables, of rows times indexes, and
    // what the plans of the typed statements read, EXPLAIN not counted; where no statement that is
    // answered with rows has LIKE, the comparisons are at most those of the plans' seeks.
    ensures spent { IfSome (task (F.contents files.old) words.now) (λ asked.
        IsSpentOn asked steps.old steps.new work.old work.new) }
    ensures fetched { steps.old ≤ steps.new }
    ensures compared { work.old ≤ work.new }
{
    run_words(alloc, words, files, out, work, steps)
}
