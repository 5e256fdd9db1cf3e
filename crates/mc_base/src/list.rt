ghost use Rattle.std.specs.Prelude.{
  ◌≡◌,
  [],
  ◌∷◌,
  ◌++◌,
  length,
  take,
  ◌↔◌,
  IsTrue,
  IfOk,
  OnOk,
  OnErr,
};

use crate::NoMemory;
use std::alloc::Global;
use std::marker::Model;

/// An owned list. Contracts see it as the list of its members.
#[derive(Debug, Drop)]
pub struct List<T> {
    members: Vec<T>,
}

/// A text: a list of bytes.
pub type Text = List<u8>;

/// A list of weights, or of code points.
pub type Weights = List<u32>;

impl<T> Model for List<T> {
    ghost use Rattle.std.specs.Prelude.{List};
    ghost use Rattle.std.specs.Coded.{coded_list};

    ghost Value = { List T };

    ghost coded = { coded_list T.code };

    ghost view = { λ list. list.members.items };
}

impl<T> List<T> {
    /// The empty list. It takes no memory until something is appended.
    pub fn new(alloc: Global) -> List<T>
        ensures { result ≡ [] }
    {
        List {
            members: Vec::new(alloc),
        }
    }

    /// How many members it has.
    pub fn len(&self) -> usize
        ensures { result ≡ length self.now }
    {
        self.members.len()
    }

    /// Whether it has no members.
    pub fn is_empty(&self) -> bool
        ensures { IsTrue result ↔ (self.now ≡ []) }
    {
        self.members.is_empty()
    }

    /// The members in order.
    pub fn as_slice(&self) -> &[T]
        ensures { result.now ≡ self.now }
    {
        self.members.as_slice()
    }
}

impl<T: Drop> List<T> {
    /// Appends a member. Without memory for it the list stays as it was, and the member is dropped.
    pub fn push(&mut self, member: T) -> Result<(), NoMemory>
        ensures ok { OnOk result (self.new ≡ self.old ++ member ∷ []) }
        ensures err { OnErr result (self.new ≡ self.old) }
    {
        self.members.push(member)?;
        Ok(())
    }

    /// Makes room for so many more members, so that appending them moves none. The list stays.
    pub fn reserve(&mut self, more: usize) -> Result<(), NoMemory>
        ensures { self.new ≡ self.old }
    {
        self.members.reserve(more)?;
        Ok(())
    }

    /// Keeps the first `len` members, or all where there are no more.
    pub fn truncate(&mut self, len: usize)
        ensures { self.new ≡ take len self.old }
    {
        self.members.truncate(len);
    }
}

impl<T: Copy> List<T> {
    /// A list of these members.
    pub fn from_slice(alloc: Global, members: &[T]) -> Result<List<T>, NoMemory>
        ensures { IfOk result (λ list. list ≡ members.now) }
    {
        Ok(List {
            members: Vec::from_slice(alloc, members)?,
        })
    }

    /// Appends these members in order, all of them or, without memory, none.
    pub fn extend_from_slice(&mut self, more: &[T]) -> Result<(), NoMemory>
        ensures ok { OnOk result (self.new ≡ self.old ++ more.now) }
        ensures err { OnErr result (self.new ≡ self.old) }
    {
        self.members.extend_from_slice(more)?;
        Ok(())
    }
}
