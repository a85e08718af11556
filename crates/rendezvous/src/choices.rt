ghost use Rattle.std.specs.Prelude.{◌≡◌};
ghost use Rattle.sys_base.specs.Held.{first_kept, given, takes_first};
ghost use Rattle.rendezvous.specs.bodies.Stores.{index_below};

use sys_base::{Fault, Word};

/// The number as an index, where it is below a length.
pub(crate) fn index_below(number: i64, len: u16) -> Option<u16>
    ensures { result ≡ index_below number len }
{
    if number < 0 || number >= i64::from(len) {
        return None;
    }
    Some(number as u16)
}

/// The fault that is kept once this one comes.
pub(crate) fn first_kept(kept: Option<Fault>, fault: Fault) -> Option<Fault>
    ensures { result ≡ first_kept kept fault }
{
    match kept {
        Some(first) => Some(first),
        None => Some(fault),
    }
}

/// Whether a test takes the first arm.
pub(crate) fn takes_first(kept: Option<Fault>, test: Word) -> bool
    ensures { result ≡ takes_first kept test }
{
    match (kept, test) {
        (None, Word::Num(number)) => number != 0,
        _ => false,
    }
}

/// What a cell gives out in place of a value.
pub(crate) fn given(kept: Option<Fault>, value: Word) -> Word
    ensures { result ≡ given kept value }
{
    match kept {
        Some(fault) => Word::Fault(fault),
        None => value,
    }
}
