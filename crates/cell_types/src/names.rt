ghost use Rattle.std.specs.Prelude.{◌≡◌, not, [], ◌∷◌, ◌++◌, length, is_some, if◌then◌else◌, IfOk};
ghost use Rattle.cell_types.specs.bodies.Scopes.{names_in, place_of};

use indexmap::IndexSet;
use std::alloc::Global;
use sys_base::{Memory, Name};

/// Names that differ, each with its place in the order in which they were added.
#[derive(Drop)]
pub(crate) struct NameSet<'a> {
    names: IndexSet<&'a [u8]>,
}

impl<'a> NameSet<'a> {
    /// No name.
    pub(crate) fn new(alloc: Global) -> NameSet<'a>
        ensures { names_in result ≡ [] }
    {
        NameSet {
            names: IndexSet::new(alloc),
        }
    }

    /// Adds the name at the end, unless it is there already, and says whether it is new.
    pub(crate) fn add(&mut self, name: &'a Name) -> Result<bool, Memory>
        ensures new { IfOk result (λ new. new ≡ not (is_some (place_of (names_in self.old) name.now))) }
        ensures names { IfOk result
            (λ new. names_in self.new ≡ (if new then names_in self.old ++ name.now ∷ [] else names_in self.old)) }
    {
        Ok(self.names.insert(name.bytes())?)
    }

    /// The place of the name.
    pub(crate) fn place(&self, name: &Name) -> Option<usize>
        ensures { result ≡ place_of (names_in self.now) name.now }
    {
        if self.names.is_empty() {
            return None;
        }
        self.names.get_index_of(name.bytes())
    }

    /// How many names there are.
    pub(crate) fn len(&self) -> usize
        ensures { result ≡ length (names_in self.now) }
    {
        self.names.len()
    }
}
