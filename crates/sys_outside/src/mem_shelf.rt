ghost use Rattle.std.specs.Prelude.{◌≡◌, ◌≢◌, ℕ, ◌^◌, ◌<◌, ◌≤◌, ◌↔◌, List, [], Option, None, Some, IsErrOf, MatchOption};
ghost use Rattle.sys_outside.specs.Fault.{Rose};
ghost use Rattle.sys_outside.specs.Shelf.{Fetches};
ghost use Rattle.sys_outside.specs.Files.{files_of, named, after_fetch, FailsAt};

use crate::shelf::{Fetched, Shelf, ShelfError};
use std::marker::Model;

/// Files in memory, of which some calls fail: those whose numbers are listed, counted from 0, and those for a name that
/// no file has. Every call from number 4294967295 on has that number. Of several files with one name the first counts.
#[derive(Drop)]
pub struct MemShelf {
    files: Vec<(String, Vec<u8>)>,
    failing: Vec<u32>,
    calls: u32,
    faults: u64,
}

impl Model for MemShelf {
    ghost use Rattle.sys_outside.specs.Files.{Shelved, files_of};

    ghost Value = { Shelved };

    ghost view = { λ s.
        record { files = files_of s.files.items; failing = s.failing.items; calls = s.calls; faults = s.faults } };
}

impl MemShelf {
    /// A shelf with these files, whose calls with these numbers fail.
    pub fn new(files: Vec<(String, Vec<u8>)>, failing: Vec<u32>) -> MemShelf
        ensures { result ≡ record { files = files_of files.items; failing = failing.items; calls = 0; faults = 0 } }
    {
        MemShelf {
            files,
            failing,
            calls: 0,
            faults: 0,
        }
    }
}

impl Shelf for MemShelf {
    ghost held = { λ s. named s.files };

    ghost faults = { λ s _. s.faults };

    fn fetch(&mut self, name: &str, limit: usize, into: &mut Vec<u8>) -> Result<Fetched, ShelfError>
        requires { limit < 2 ^ 32 }
        ensures bytes { Fetches (named self.old.files name.now) limit into.new.items result }
        ensures held { named self.new.files ≡ named self.old.files }
        ensures later { (n : List ℕ) → self.old.faults ≤ self.new.faults }
        ensures failed { IsErrOf result ShelfError.Failed → Rose self.old.faults self.new.faults }

        // Exactly these calls fail.
        ensures fails { IsErrOf result ShelfError.Failed ↔ FailsAt self.old name.now }
        ensures after { self.new ≡ after_fetch self.old result }
    {
        into.clear();
        let call = self.calls;
        self.calls = call.saturating_add(1);
        if self.failing.contains(&call) {
            self.faults = self.faults.saturating_add(1);
            return Err(ShelfError::Failed);
        }
        match find(&self.files, name) {
            None => {
                self.faults = self.faults.saturating_add(1);
                Err(ShelfError::Failed)
            }
            Some(file) => give(file, limit, into),
        }
    }
}

// The bytes of the first file of a name.
pub(crate) fn find<'a>(files: &'a [(String, Vec<u8>)], name: &str) -> Option<&'a [u8]>
    ensures { MatchOption result (named (files_of files.now) name.now ≡ None)
        (λ bytes. named (files_of files.now) name.now ≡ Some bytes.now) }
{
    let mut rest = files;
    while let [(key, bytes), after @ ..] = rest {
        if key.as_str() == name {
            return Some(bytes.as_slice());
        }
        rest = after;
    }
    None
}

// Leaves the bytes of a file in `into`, or the first of them where they are more than `limit`.
pub(crate) fn give(bytes: &[u8], limit: usize, into: &mut Vec<u8>) -> Result<Fetched, ShelfError>
    requires limit { limit < 2 ^ 32 }
    requires empty { into.old.items ≡ [] }
    ensures bytes { Fetches (Some bytes.now) limit into.new.items result }
    ensures given { result ≢ Err ShelfError.Failed }
{
    if bytes.len() <= limit {
        into.extend_from_slice(bytes)?;
        return Ok(Fetched::Whole);
    }
    into.extend_from_slice(&bytes[..limit + 1])?;
    Ok(Fetched::Longer)
}
