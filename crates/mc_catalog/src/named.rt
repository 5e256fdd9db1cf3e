ghost use Rattle.std.specs.Prelude.{
  ◌≡◌,
  ◌<◌,
  [],
  ◌∷◌,
  ◌++◌,
  length,
  false,
  map,
  position,
  IfSome,
  IfOk,
  OnOk,
  OnErr,
};
ghost use Rattle.std.specs.List.{list_any};
ghost use Rattle.std.specs.Str.{bytes_eq};
ghost use Rattle.mc_catalog.specs.Lawful.{AreApart};

use crate::catalog::{CollDecl, ColumnDecl, IndexDecl, TableDecl};
use crate::names::Names;
use mc_base::{List, NoMemory};
use std::alloc::Global;
use std::marker::Model;

/// What bears a name.
pub(crate) trait Titled: Drop {
    ghost use Rattle.std.specs.Prelude.{List, ℕ};

    ghost title: { Self → List ℕ };

    /// The name.
    fn title(&self) -> &[u8]
        ensures { result.now ≡ title self.now };
}

/// Members whose names differ, in the order in which they came, with the places of their names.
#[derive(Drop)]
pub(crate) struct Named<T: Titled> {
    members: List<T>,
    names: Names,
}

impl<T: Titled> Model for Named<T> {
    ghost use Rattle.std.specs.Prelude.{◌≡◌, List, map};

    ghost Value = { List T };

    ghost view = { λ named. named.members };

    ghost invariant = { λ named. named.names ≡ map T.title named.members };
}

impl<T: Titled> Named<T> {
    /// No members.
    pub(crate) fn new(alloc: Global) -> Named<T>
        ensures { result ≡ [] }
    {
        Named {
            members: List::new(alloc),
            names: Names::new(alloc),
        }
    }

    /// These members, whose names differ.
    pub(crate) fn from_list(alloc: Global, members: List<T>) -> Result<Named<T>, NoMemory>
        requires { AreApart (map T.title members) }
        ensures { IfOk result (λ named. named ≡ members) }
    {
        let mut names = Names::new(alloc);
        match add_titles(alloc, &mut names, members.as_slice()) {
            Ok(()) => Ok(Named { members, names }),
            Err(error) => Err(error),
        }
    }

    /// The members in order.
    pub(crate) fn as_slice(&self) -> &[T]
        ensures { result.now ≡ self.now }
    {
        self.members.as_slice()
    }

    /// The place of the member of a name, from 0.
    pub(crate) fn place_of(&self, name: &[u8]) -> Option<usize>
        ensures place { result ≡ position (λ member. bytes_eq (T.title member) name.now) self.now }
        ensures within { IfSome result (λ i. i < length self.now) }
    {
        self.names.place_of(name)
    }

    /// Whether a member has a name.
    pub(crate) fn has(&self, name: &[u8]) -> bool
        ensures { result ≡ list_any (λ member. bytes_eq (T.title member) name.now) self.now }
    {
        self.names.has(name)
    }

    /// Appends a member of a new name. Without memory the members stay as they were.
    pub(crate) fn push(&mut self, alloc: Global, member: T) -> Result<(), NoMemory>
        requires { list_any (λ other. bytes_eq (T.title other) (T.title member)) self.old ≡ false }
        ensures ok { OnOk result (self.new ≡ self.old ++ member ∷ []) }
        ensures err { OnErr result (self.new ≡ self.old) }
    {
        self.names.add(alloc, member.title())?;
        match self.members.push(member) {
            Ok(()) => Ok(()),
            Err(error) => {
                self.names.truncate(self.members.len());
                Err(error)
            }
        }
    }

    /// The members as a list.
    pub(crate) fn into_list(self) -> List<T>
        ensures { result ≡ self }
    {
        let Named { members, names } = self;
        drop(names);
        members
    }
}

/// Adds the names of members, which differ, where no name is there yet.
fn add_titles<T: Titled>(alloc: Global, names: &mut Names, members: &[T]) -> Result<(), NoMemory>
    requires fresh { names.old ≡ [] }
    requires apart { AreApart (map T.title members.now) }
    ensures { OnOk result (names.new ≡ map T.title members.now) }
{
    for member in members {
        names.add(alloc, member.title())?;
    }
    Ok(())
}

impl Titled for CollDecl {
    ghost title = { λ declared. declared.name };

    fn title(&self) -> &[u8] {
        self.name.as_slice()
    }
}

impl Titled for TableDecl {
    ghost title = { λ table. table.name };

    fn title(&self) -> &[u8] {
        self.name.as_slice()
    }
}

impl Titled for ColumnDecl {
    ghost title = { λ column. column.name };

    fn title(&self) -> &[u8] {
        self.name.as_slice()
    }
}

impl Titled for IndexDecl {
    ghost title = { λ index. index.name };

    fn title(&self) -> &[u8] {
        self.name.as_slice()
    }
}
