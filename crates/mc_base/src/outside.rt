ghost use Rattle.std.specs.Prelude.{◌≡◌, ◌≤◌, ◌↔◌, IsTrue, IfSome, length, ℕ, List, Option, Bool};
ghost use Rattle.mc_base.specs.Files.{OpenTells, OpenCause, ReadTells, ReadCause};
ghost use Rattle.mc_base.specs.Sink.{PutTells, PutCause};

use crate::Text;

/// The answer to opening a file.
#[derive(Clone, Copy, Debug, PartialEq, Eq)]
pub enum OpenAnswer {
    /// The file is open, at its first byte.
    Opened,
    /// No file has that name.
    Absent,
    /// The device failed.
    Failed,
    /// Memory ran out.
    NoMemory,
}

/// The answer to reading on in the open file.
#[derive(Clone, Copy, Debug, PartialEq, Eq)]
pub enum ReadAnswer {
    /// So many bytes stand at the front of the buffer; none, in a buffer with room, at the file's
    /// end alone.
    Got(usize),
    /// The device failed.
    Failed,
}

/// The answer to writing.
#[derive(Clone, Copy, Debug, PartialEq, Eq)]
pub enum PutAnswer {
    /// All bytes were appended.
    Done,
    /// The device failed after some of the bytes.
    Failed,
    /// Memory ran out before the first byte.
    NoMemory,
}

/// A source of files, of which one at a time is open.
pub trait Files {
    /// From names to the bytes of the files, where the source tells them.
    ghost contents: { Self → Option (List ℕ → Option (List ℕ)) };

    /// Whether a file is open.
    ghost is_open: { Self → Bool };

    /// The bytes of the open file that are not yet read, where contents are told.
    ghost place: { Self → List ℕ };

    /// How often the device has failed.
    ghost faults: { Self → ℕ };

    /// Opens the file of this name. The file that was open before is closed, whatever the answer.
    fn open(&mut self, name: &Text) -> OpenAnswer
        ensures kept { contents self.new ≡ contents self.old }
        ensures later { faults self.old ≤ faults self.new }
        ensures opened { IsTrue (is_open self.new) ↔ (result ≡ OpenAnswer.Opened) }
        ensures told { IfSome (contents self.old)
            (λ files. OpenTells result (files name.now) (place self.new)) }
        ensures cause { OpenCause result (faults self.old) (faults self.new) };

    /// Reads on in the open file, which stays open.
    fn read(&mut self, buf: &mut [u8]) -> ReadAnswer
        requires { IsTrue (is_open self.old) }
        ensures kept { contents self.new ≡ contents self.old }
        ensures later { faults self.old ≤ faults self.new }
        ensures opened { IsTrue (is_open self.new) }
        ensures told { IfSome (contents self.old)
            (λ _. ReadTells result buf.new (place self.old) (place self.new)) }
        ensures cause { ReadCause result (length buf.old) (faults self.old) (faults self.new) };
}

/// What takes bytes in order.
pub trait Sink {
    /// The bytes that were written, where the sink tells them.
    ghost written: { Self → Option (List ℕ) };

    /// How often the device has failed.
    ghost faults: { Self → ℕ };

    /// Appends these bytes.
    fn put(&mut self, bytes: &[u8]) -> PutAnswer
        ensures later { faults self.old ≤ faults self.new }
        ensures told { PutTells result bytes.now (written self.old) (written self.new) }
        ensures cause { PutCause result (faults self.old) (faults self.new) };
}
