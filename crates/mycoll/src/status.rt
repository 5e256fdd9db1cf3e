/// How a run ended. Its number is the program's exit status.
#[derive(Clone, Copy, Debug, PartialEq, Eq)]
pub enum Status {
    /// Every statement was answered, and none refused.
    Done,
    /// Every statement was answered, and some were refused.
    SomeRefused,
    /// The words are of no form; the usage line was written.
    Usage,
    /// A file was refused; its line was written.
    FilesRefused,
    /// Reading a file failed; nothing was written.
    ReadFault,
    /// Writing failed; some first bytes of the answers, or of the one line, were written.
    WriteFault,
    /// Memory ran out; the whole answers of some first statements were written, or nothing of a
    /// line.
    NoMemory,
}
