ghost use Rattle.std.specs.Prelude.{◌≡◌, ◌≢◌, ℕ, ◌^◌, ◌<◌, ◌≤◌, List, Some, IsErrOf};
ghost use Rattle.sys_outside.specs.Fault.{Rose};
ghost use Rattle.sys_outside.specs.Shelf.{Fetches};
ghost use Rattle.sys_outside.specs.Files.{files_of, named_or_empty};

use crate::mem_shelf::{find, give};
use crate::shelf::{Fetched, Shelf, ShelfError};
use std::marker::Model;

/// Files in memory, of which no call fails: a name that no file has is held as an empty file. Of several files with one
/// name the first counts.
#[derive(Drop)]
pub struct SureShelf {
    files: Vec<(String, Vec<u8>)>,
}

impl Model for SureShelf {
    ghost use Rattle.std.specs.Prelude.{ℕ, List};
    ghost use Rattle.sys_outside.specs.Files.{files_of};

    ghost Value = { List (List ℕ × List ℕ) };

    ghost view = { λ s. files_of s.files.items };
}

impl SureShelf {
    /// A shelf with these files.
    pub fn new(files: Vec<(String, Vec<u8>)>) -> SureShelf
        ensures { result ≡ files_of files.items }
    {
        SureShelf { files }
    }
}

impl Shelf for SureShelf {
    ghost held = { λ s name. Some (named_or_empty s name) };

    ghost faults = { λ _ _. 0 };

    fn fetch(&mut self, name: &str, limit: usize, into: &mut Vec<u8>) -> Result<Fetched, ShelfError>
        requires { limit < 2 ^ 32 }
        ensures bytes { Fetches (Some (named_or_empty self.old name.now)) limit into.new.items result }
        ensures files { self.new ≡ self.old }
        ensures sure { result ≢ Err ShelfError.Failed }
    {
        into.clear();
        let file = find(&self.files, name);
        give(file.unwrap_or(b""), limit, into)
    }
}
