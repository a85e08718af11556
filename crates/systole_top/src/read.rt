ghost use Rattle.std.specs.Prelude.{◌≡◌, ◌^◌, ◌<◌, ◌≤◌, IfOk, IfSome, vec_len};
ghost use Rattle.std.specs.Option.{option_map};
ghost use Rattle.systole_top.specs.bodies.Runs.{Steps};
ghost use Rattle.systole_top.specs.bodies.Stops.{bytes_of, ended};
ghost use Rattle.systole_top.specs.Texts.{cannot_read};
ghost use Rattle.systole_top.specs.Tree.{Gives, Reads};

use crate::answer::Stop;
use std::alloc::{AllocError, Global};
use sys_outside::{Fetched, Shelf, ShelfError};

/// Reads a file as far as a limit; `None` where it is longer.
pub fn read_file<S: Shelf>(
    alloc: Global,
    shelf: &mut S,
    name: &str,
    limit: usize,
) -> Result<Option<Vec<u8>>, Stop>
    requires { limit < 2 ^ 32 }
    ensures read { Steps (S.held shelf.old) (S.held shelf.new) (S.faults shelf.old) (S.faults shelf.new)
        (Reads name.now limit Gives) (ended (option_map bytes_of) result) }
    ensures short { IfOk result (λ file. IfSome file (λ bytes. vec_len bytes ≤ limit)) }
{
    let mut bytes = Vec::new(alloc);
    match shelf.fetch(name, limit, &mut bytes) {
        Ok(Fetched::Whole) => Ok(Some(bytes)),
        Ok(Fetched::Longer) => Ok(None),
        Err(ShelfError::Failed) => Err(Stop::Unread(cannot_read(alloc, name)?)),
        Err(ShelfError::Memory) => Err(Stop::Memory),
    }
}

#[tactic(auto, unfolding(crate::specs::Texts::cannot_read))]
fn cannot_read(alloc: Global, name: &str) -> Result<Vec<u8>, AllocError>
    ensures { IfOk result (λ line. line.items ≡ cannot_read name.now) }
{
    let mut line = Vec::from_slice(alloc, b"cannot read ")?;
    line.extend_from_slice(name.as_bytes())?;
    line.extend_from_slice(b"\n")?;
    Ok(line)
}
