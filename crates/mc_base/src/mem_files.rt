ghost use Rattle.std.specs.Prelude.{
  ◌≡◌,
  ◌≤◌,
  ◌≢◌,
  ◌↔◌,
  IsTrue,
  AllPairs,
  Some,
  None,
  is_some,
  min,
  take,
  length,
  position,
  IfSome,
  ◌<◌,
  ◌+◌,
  ◌++◌,
  ◌^◌,
  [],
  drop,
};
ghost use Rattle.std.specs.Str.{bytes_eq};
ghost use Rattle.mc_base.specs.Cursor.{bytes_at};
ghost use Rattle.mc_base.specs.FaultPlan.{fails_now, counted};
ghost use Rattle.mc_base.specs.Files.{OpenTells, OpenCause, ReadTells, ReadCause};
ghost use Rattle.mc_base.specs.MemFiles.{contents_of, rest_told, OpensAsPlanned, ReadsAsPlanned};

use crate::fault_plan::FaultPlan;
use crate::{Files, List, OpenAnswer, ReadAnswer, Text};
use std::marker::Model;

/// A place in a file of a list: the file's index, and the bytes before the place.
#[derive(Clone, Copy)]
struct Cursor {
    file: usize,
    offset: usize,
}

/// Files in memory, named and listed, that fail in the calls that they were told.
#[derive(Drop)]
pub struct MemFiles {
    files: List<(Text, Text)>,
    plan: FaultPlan,
    cursor: Option<Cursor>,
}

impl Model for MemFiles {
    ghost use Rattle.mc_base.specs.MemFiles.{FilesState};

    ghost Value = { FilesState };

    ghost use Rattle.mc_base.specs.Cursor.{rest_at, IsWithin};

    ghost view = { λ m.
        record { files = m.files; plan = m.plan; rest = rest_at m.files m.cursor } };

    ghost invariant = { λ m. IsWithin m.files m.cursor };
}

impl MemFiles {
    /// These files by their names, which differ. The calls of the numbers in `fail` answer Failed:
    /// opens and reads are counted together, from 0.
    pub fn new(files: List<(Text, Text)>, fail: List<u64>) -> MemFiles
        requires { AllPairs (λ a b. a.0 ≢ b.0) files }
        ensures { result ≡ record {
          files = files;
          plan = record { fail = fail; calls = 0; faults = 0 };
          rest = None;
        } }
    {
        MemFiles {
            files,
            plan: FaultPlan::new(fail),
            cursor: None,
        }
    }
}

impl Files for MemFiles {
    ghost contents = { λ m. Some (contents_of m.files) };

    ghost is_open = { λ m. is_some m.rest };

    ghost place = { λ m. rest_told m.rest };

    ghost faults = { λ m. m.plan.faults };

    #[tactic(auto, using(crate::proofs::Contents::contents_found, crate::proofs::Contents::contents_absent))]
    fn open(&mut self, name: &Text) -> OpenAnswer
        ensures kept { self.new.files ≡ self.old.files }
        ensures later { self.old.plan.faults ≤ self.new.plan.faults }
        ensures opened { IsTrue (is_some self.new.rest) ↔ (result ≡ OpenAnswer.Opened) }
        ensures told { OpenTells result (contents_of self.old.files name.now)
            (rest_told self.new.rest) }
        ensures cause { OpenCause result self.old.plan.faults self.new.plan.faults }
        ensures planned { self.new.plan ≡ counted self.old.plan }
        ensures failing { OpensAsPlanned result (fails_now self.old.plan) }
    {
        self.cursor = None;
        if self.plan.count_call() {
            return OpenAnswer::Failed;
        }
        match index_of(self.files.as_slice(), name) {
            Some(file) => {
                self.cursor = Some(Cursor { file, offset: 0 });
                OpenAnswer::Opened
            }
            None => OpenAnswer::Absent,
        }
    }

    fn read(&mut self, buf: &mut [u8]) -> ReadAnswer
        requires { IsTrue (is_some self.old.rest) }
        ensures kept { self.new.files ≡ self.old.files }
        ensures later { self.old.plan.faults ≤ self.new.plan.faults }
        ensures opened { IsTrue (is_some self.new.rest) }
        ensures told { ReadTells result buf.new (rest_told self.old.rest)
            (rest_told self.new.rest) }
        ensures cause { ReadCause result (length buf.old) self.old.plan.faults
            self.new.plan.faults }
        ensures planned { self.new.plan ≡ counted self.old.plan }
        ensures failing { ReadsAsPlanned result (fails_now self.old.plan) }
    {
        if self.plan.count_call() {
            return ReadAnswer::Failed;
        }
        let Some(cursor) = self.cursor else {
            unreachable!()
        };
        let count = read_at(self.files.as_slice(), cursor, buf);
        self.cursor = Some(Cursor {
            file: cursor.file,
            offset: cursor.offset + count,
        });
        ReadAnswer::Got(count)
    }
}

/// The index of the first file of this name.
fn index_of(files: &[(Text, Text)], name: &Text) -> Option<usize>
    ensures first { result ≡ position (λ file. bytes_eq file.0 name.now) files.now }
    ensures within { IfSome result (λ i. i < length files.now) }
{
    files
        .iter()
        .position(|file| file.0.as_slice() == name.as_slice())
}

/// Copies the bytes from a place on into the buffer, as many as it holds; how many these are.
fn read_at(files: &[(Text, Text)], cursor: Cursor, buf: &mut [u8]) -> usize
    requires file { cursor.file < length files.now }
    requires offset { cursor.offset ≤ length (bytes_at files.now cursor.file) }
    ensures bound { result ≤ length buf.old }
    ensures fits { cursor.offset + result < 2 ^ 64 }
    ensures within { cursor.offset + result ≤ length (bytes_at files.now cursor.file) }
    ensures read { drop cursor.offset (bytes_at files.now cursor.file)
        ≡ take result buf.new ++ drop (cursor.offset + result) (bytes_at files.now cursor.file) }
    ensures end { result ≡ 0 → 0 < length buf.old
        → drop cursor.offset (bytes_at files.now cursor.file) ≡ [] }
{
    let rest = &files[cursor.file].1.as_slice()[cursor.offset..];
    copy_front(rest, buf)
}

/// Copies as many bytes as both have room for; how many these are.
fn copy_front(from: &[u8], to: &mut [u8]) -> usize
    ensures count { result ≡ min (length from.now) (length to.old) }
    ensures copied { take result to.new ≡ take result from.now }
{
    let count = from.len().min(to.len());
    to[..count].copy_from_slice(&from[..count]);
    count
}
