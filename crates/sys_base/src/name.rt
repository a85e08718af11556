ghost use Rattle.std.specs.Prelude.{◌≡◌, ℕ, ◌↔◌, List, Some, IsTrue, IsSome, IfSome, IfOk};
ghost use Rattle.sys_base.specs.Name.{IsName, IsWord};

use crate::bytes::{is_letter, is_word_byte};
use crate::key::Key;
use crate::limits::NAME_BYTES;
use crate::memory::Memory;
use std::alloc::Global;
use std::marker::Model;
use std::rc::Rc;
use std::{fmt, str};

/// A name of the cell language, seen as its bytes: a letter or `_`, then letters, digits and `_`, at most 32 in all,
/// and no keyword (`docs/language.md`, "Names and keywords"). Its copies share the memory of its bytes, so that a name
/// that stands many times in a program takes a pointer each time.
#[derive(Debug, Drop)]
pub struct Name {
    shared: Rc<Vec<u8>>,
}

impl Model for Name {
    ghost Value = { List ℕ };

    ghost view = { λ n. n.shared.value.items };

    ghost invariant = { λ n. IsName n.shared.value.items };
}

impl Name {
    /// The name with these bytes; `None` exactly where they are no name.
    pub fn new(alloc: Global, bytes: &[u8]) -> Result<Option<Name>, Memory>
        ensures name { IfOk result (λ name. IsSome name ↔ IsName bytes.now) }
        ensures bytes { IfOk result (λ name. IfSome name (λ n. n ≡ bytes.now)) }
    {
        if !is_name(bytes) {
            return Ok(None);
        }
        let bytes = Vec::from_slice(alloc, bytes)?;
        Ok(Some(Name {
            shared: Rc::new(alloc, bytes)?,
        }))
    }

    /// An equal name, which shares the bytes.
    pub fn copy(&self) -> Result<Name, Memory>
        ensures { IfOk result (λ name. name ≡ self.now) }
    {
        Ok(Name {
            shared: self.shared.clone()?,
        })
    }

    /// The bytes of the name.
    pub fn bytes(&self) -> &[u8]
        ensures bytes { result.now ≡ self.now }
        ensures name { IsName self.now }
    {
        self.shared.as_slice()
    }
}

fn is_name(bytes: &[u8]) -> bool
    ensures { IsTrue result ↔ IsName bytes.now }
{
    bytes.len() <= NAME_BYTES && is_word(bytes) && Key::from_word(bytes).is_none()
}

fn is_word(bytes: &[u8]) -> bool
    ensures { IsTrue result ↔ IsWord bytes.now }
{
    match bytes {
        [] => false,
        [first, ..] => is_letter(*first) && bytes.iter().all(|b| is_word_byte(*b)),
    }
}

impl fmt::Display for Name {
    ghost output = { λ name. Some name };

    fn fmt<W: fmt::Write>(&self, f: &mut fmt::Formatter<W>) -> fmt::Result {
        let text = str::from_utf8(self.bytes()).map_err(|_| fmt::Error)?;
        f.write_str(text)
    }
}
