ghost use Rattle.std.specs.Prelude.{◌≡◌, All, IfOk, IfErr};
ghost use Rattle.sys_base.specs.Name.{IsName};

use crate::fault::Fault;
use indexmap::IndexMap;
use std::alloc::Global;
use sys_base::Name;

/// The names that have been read, by their bytes: a name that stands many times in a text is made once.
#[derive(Drop)]
pub(crate) struct Names<'t> {
    made: IndexMap<&'t [u8], Name>,
    ghost same: { All (λ entry. entry.1 ≡ entry.0.now) made.entries },
}

impl<'t> Names<'t> {
    /// No name.
    pub(crate) fn new(alloc: Global) -> Names<'t> {
        Names {
            made: IndexMap::new(alloc),
        }
    }

    /// The name with these bytes.
    pub(crate) fn named(&mut self, alloc: Global, bytes: &'t [u8]) -> Result<Name, Fault>
        requires { IsName bytes.now }
        ensures name { IfOk result (λ n. n ≡ bytes.now) }
        ensures wrong { IfErr result (λ e. e ≡ Fault.Memory) }
    {
        if let Some(name) = self.made.get(bytes) {
            return Ok(name.copy()?);
        }
        let Some(name) = Name::new(alloc, bytes)? else {
            unreachable!()
        };
        self.made.insert(bytes, name.copy()?)?;
        Ok(name)
    }
}
