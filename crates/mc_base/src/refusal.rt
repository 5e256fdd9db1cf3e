use crate::Text;

/// A refused statement: the number and the text of its `ERROR` line, the text not yet escaped.
#[derive(Drop)]
pub struct Refusal {
    pub number: u32,
    pub text: Text,
}

/// A refused file: its name, the name of the fault, and where the fault is, in what the file's
/// reader counts (lines or records from 1, bytes from 0; 0 where it counts nothing).
#[derive(Drop)]
pub struct FileRefusal {
    pub name: Text,
    pub fault: Text,
    pub at: u64,
}
