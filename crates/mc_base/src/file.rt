ghost use Rattle.std.specs.Prelude.{◌≡◌, ◌≤◌, IfOk, IfSome, length};
ghost use Rattle.mc_base.specs.FileOutcome.{
  file_outcome,
  file_refusal,
  greatest_file,
  FileCause,
  HasOutcome,
  IsRefusedAs,
};
ghost use Rattle.mc_base.specs.declared.file.FileFault.TheVariants.{NoMemory as OutOfMemory};

use crate::{FileRefusal, Files, NoMemory, ReadWhole, Text, read_whole};
use std::alloc::Global;

/// The greatest length of a file, in bytes.
const GREATEST_FILE: u64 = 16_777_216;

/// Why there is no file, or nothing that comes of it.
#[derive(Drop)]
pub enum FileFault {
    /// This file is refused.
    Refused(FileRefusal),
    /// The device failed.
    Fault,
    /// Memory ran out.
    NoMemory,
}

impl From<NoMemory> for FileFault {
    ghost from_gives = { λ _ error. error ≡ OutOfMemory };

    fn from(_error: NoMemory) -> FileFault {
        FileFault::NoMemory
    }
}

/// The whole file of this name, at most 16,777,216 bytes long. It is refused as `Absent` with 0, or
/// as `TooLong` with 16777216.
pub fn read_file<F: Files>(alloc: Global, files: &mut F, name: &Text) -> Result<Text, FileFault>
    ensures kept { F.contents files.new ≡ F.contents files.old }
    ensures later { F.faults files.old ≤ F.faults files.new }
    ensures told { IfSome (F.contents files.old) (λ told.
        HasOutcome (λ text. text) result (file_outcome told name.now)) }
    ensures cause { FileCause result (F.faults files.old) (F.faults files.new) }
    ensures short { IfOk result (λ text. length text ≤ greatest_file) }
{
    match read_whole(alloc, files, name, GREATEST_FILE) {
        Ok(text) => Ok(text),
        Err(ReadWhole::Absent) => Err(refuse_file(alloc, name, b"Absent", 0)),
        Err(ReadWhole::TooLong) => Err(refuse_file(alloc, name, b"TooLong", GREATEST_FILE)),
        Err(ReadWhole::Fault) => Err(FileFault::Fault),
        Err(ReadWhole::NoMemory) => Err(FileFault::NoMemory),
    }
}

/// The refusal of a file by its name, the name of the fault, and where that is, or want of memory
/// for it.
pub fn refuse_file(alloc: Global, name: &Text, fault: &[u8], at: u64) -> FileFault
    ensures { IsRefusedAs result (file_refusal name.now fault.now at) }
{
    match file_refusal(alloc, name, fault, at) {
        Ok(refusal) => FileFault::Refused(refusal),
        Err(NoMemory) => FileFault::NoMemory,
    }
}

/// The refusal of a file.
fn file_refusal(alloc: Global, name: &Text, fault: &[u8], at: u64) -> Result<FileRefusal, NoMemory>
    ensures { IfOk result (λ refusal. refusal ≡ file_refusal name.now fault.now at) }
{
    Ok(FileRefusal {
        name: Text::from_slice(alloc, name.as_slice())?,
        fault: Text::from_slice(alloc, fault)?,
        at,
    })
}
