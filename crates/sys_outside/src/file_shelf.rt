ghost use Rattle.std.specs.Prelude.{◌≡◌, ◌≢◌, ℕ, ◌^◌, ◌<◌, ◌≤◌, List, [], Option, None, IsErrOf, vec_capacity};
ghost use Rattle.sys_outside.specs.Fault.{Rose};
ghost use Rattle.sys_outside.specs.Shelf.{Fetches, faults_after_fetch};

use crate::shelf::{Fetched, Shelf, ShelfError};
use std::fs::File;
use std::io::Read;
use std::marker::Model;
use std::rt::Files;

// How many bytes one read asks for at most.
const CHUNK: usize = 4096;

/// The file system, through the runtime that it borrows. It tells no bytes. One count is that of every name, and rises
/// at each error of the system.
#[derive(Drop)]
pub struct FileShelf<'a, R: Files> {
    rt: &'a R,
    faults: u64,
}

impl<'a, R: Files> Model for FileShelf<'a, R> {
    ghost use Rattle.std.specs.Prelude.{ℕ};

    ghost Value = { ℕ };

    ghost view = { λ s. s.faults };
}

impl<'a, R: Files> FileShelf<'a, R> {
    /// A shelf of the files that this runtime opens.
    pub fn new(rt: &'a R) -> FileShelf<'a, R>
        ensures { result ≡ 0 }
    {
        FileShelf { rt, faults: 0 }
    }
}

impl<'a, R: Files> Shelf for FileShelf<'a, R> {
    ghost held = { λ _ _. None };

    ghost faults = { λ s _. s };

    fn fetch(&mut self, name: &str, limit: usize, into: &mut Vec<u8>) -> Result<Fetched, ShelfError>
        requires { limit < 2 ^ 32 }
        ensures bytes { Fetches None limit into.new.items result }
        ensures later { (n : List ℕ) → self.old ≤ self.new }
        ensures failed { IsErrOf result ShelfError.Failed → Rose self.old self.new }
        ensures counts { self.new ≡ faults_after_fetch self.old result }

        // Memory is wanted only where `into` came without room for `limit + 1` bytes: no error of the system is
        // answered so.
        ensures memory { IsErrOf result ShelfError.Memory → vec_capacity into.old ≤ limit }
    {
        into.clear();
        let fetched = match File::open(self.rt, name) {
            Ok(mut file) => read_within(&mut file, limit, into),
            Err(_) => Err(ShelfError::Failed),
        };
        if let Err(ShelfError::Failed) = fetched {
            self.faults = self.faults.saturating_add(1);
        }
        fetched
    }
}

// Reads to the end, or until `limit + 1` bytes are there.
fn read_within<F: Read>(
    file: &mut F,
    limit: usize,
    into: &mut Vec<u8>,
) -> Result<Fetched, ShelfError>
    requires limit { limit < 2 ^ 32 }
    requires empty { into.old.items ≡ [] }
    ensures bytes { Fetches (F.remaining file.old) limit into.new.items result }
    ensures memory { IsErrOf result ShelfError.Memory → vec_capacity into.old ≤ limit }
{
    let mut chunk = [0u8; CHUNK];
    // Each turn takes a byte at least, or is the last.
    for _ in 0..limit + 1 {
        let room = (limit + 1 - into.len()).min(CHUNK);
        if room == 0 {
            return Ok(Fetched::Longer);
        }
        let count = match file.read(&mut chunk[..room]) {
            Ok(count) => count,
            Err(_) => return Err(ShelfError::Failed),
        };
        if count == 0 {
            return Ok(Fetched::Whole);
        }
        into.extend_from_slice(&chunk[..count])?;
    }
    Ok(Fetched::Longer)
}
