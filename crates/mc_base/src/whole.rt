ghost use Rattle.std.specs.Prelude.{◌≡◌, ◌<◌, ◌≤◌, IsTrue, IfOk, IfSome, length, vec_len};
ghost use Rattle.mc_base.specs.Whole.{WholeTells, WholeCause, RestTells, TurnTells, TurnGrows};
ghost use Rattle.mc_base.specs.declared.whole.ReadWhole.TheVariants.{NoMemory as OutOfMemory};

use crate::{Files, NoMemory, OpenAnswer, ReadAnswer, Text};
use std::alloc::{AllocError, Global};

/// How many bytes one read asks for.
const READ_SIZE: usize = 65_536;

/// Why a file was not read whole.
#[derive(Clone, Copy, Debug, PartialEq, Eq)]
pub enum ReadWhole {
    /// No file has that name.
    Absent,
    /// The device failed.
    Fault,
    /// The file has more bytes than the limit.
    TooLong,
    /// Memory ran out.
    NoMemory,
}

impl From<NoMemory> for ReadWhole {
    ghost from_gives = { λ _ error. error ≡ OutOfMemory };

    fn from(_error: NoMemory) -> ReadWhole {
        ReadWhole::NoMemory
    }
}

impl From<AllocError> for ReadWhole {
    ghost from_gives = { λ _ error. error ≡ OutOfMemory };

    fn from(_error: AllocError) -> ReadWhole {
        ReadWhole::NoMemory
    }
}

/// The whole file of this name, of at most `limit` bytes.
pub fn read_whole<F: Files>(
    alloc: Global,
    files: &mut F,
    name: &Text,
    limit: u64,
) -> Result<Text, ReadWhole>
    ensures kept { F.contents files.new ≡ F.contents files.old }
    ensures later { F.faults files.old ≤ F.faults files.new }
    ensures within { IfOk result (λ text. length text ≤ limit) }
    ensures told { IfSome (F.contents files.old) (λ all. WholeTells result limit (all name.now)) }
    ensures cause { WholeCause result (F.faults files.old) (F.faults files.new) }
{
    match files.open(name) {
        OpenAnswer::Opened => read_open(alloc, files, limit),
        OpenAnswer::Absent => Err(ReadWhole::Absent),
        OpenAnswer::Failed => Err(ReadWhole::Fault),
        OpenAnswer::NoMemory => Err(ReadWhole::NoMemory),
    }
}

/// The rest of the open file, of at most `limit` bytes.
fn read_open<F: Files>(alloc: Global, files: &mut F, limit: u64) -> Result<Text, ReadWhole>
    requires { IsTrue (F.is_open files.old) }
    ensures kept { F.contents files.new ≡ F.contents files.old }
    ensures later { F.faults files.old ≤ F.faults files.new }
    ensures within { IfOk result (λ text. length text ≤ limit) }
    ensures told { IfSome (F.contents files.old) (λ _. RestTells result limit (F.place files.old)) }
    ensures cause { WholeCause result (F.faults files.old) (F.faults files.new) }
{
    let mut buffer = zeros(alloc, READ_SIZE)?;
    read_rest(alloc, files, &mut buffer, limit)
}

/// So many bytes of zero.
fn zeros(alloc: Global, count: usize) -> Result<Vec<u8>, AllocError>
    ensures { IfOk result (λ bytes. vec_len bytes ≡ count) }
{
    vec![in alloc; 0u8; count]
}

/// The rest of the open file, read through a buffer.
fn read_rest<F: Files>(
    alloc: Global,
    files: &mut F,
    buffer: &mut [u8],
    limit: u64,
) -> Result<Text, ReadWhole>
    requires opened { IsTrue (F.is_open files.old) }
    requires room { 0 < length buffer.old }
    ensures kept { F.contents files.new ≡ F.contents files.old }
    ensures later { F.faults files.old ≤ F.faults files.new }
    ensures within { IfOk result (λ text. length text ≤ limit) }
    ensures told { IfSome (F.contents files.old) (λ _. RestTells result limit (F.place files.old)) }
    ensures cause { WholeCause result (F.faults files.old) (F.faults files.new) }
{
    let mut text = Text::new(alloc);
    while read_more(files, buffer, &mut text, limit)? {}
    Ok(text)
}

/// Appends the bytes of one read to `text`, which stays within `limit` bytes; whether the file may
/// have more.
fn read_more<F: Files>(
    files: &mut F,
    buffer: &mut [u8],
    text: &mut Text,
    limit: u64,
) -> Result<bool, ReadWhole>
    requires opened { IsTrue (F.is_open files.old) }
    requires room { 0 < length buffer.old }
    requires within { length text.old ≤ limit }
    ensures kept { F.contents files.new ≡ F.contents files.old }
    ensures later { F.faults files.old ≤ F.faults files.new }
    ensures opened { IsTrue (F.is_open files.new) }
    ensures grows { TurnGrows result limit (length text.old) (length text.new) }
    ensures told { IfSome (F.contents files.old)
        (λ _. TurnTells result limit text.old (F.place files.old) text.new (F.place files.new)) }
    ensures cause { WholeCause result (F.faults files.old) (F.faults files.new) }
{
    match files.read(buffer) {
        ReadAnswer::Failed => Err(ReadWhole::Fault),
        ReadAnswer::Got(0) => Ok(false),
        ReadAnswer::Got(count) => {
            if limit - (text.len() as u64) < count as u64 {
                return Err(ReadWhole::TooLong);
            }
            text.extend_from_slice(&buffer[..count])?;
            Ok(true)
        }
    }
}
