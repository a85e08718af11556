ghost use Rattle.std.specs.Prelude.{◌≡◌, if◌then◌else◌};
ghost use Rattle.sys_base.specs.Held.{first_kept, takes_first, given};
ghost use Rattle.cell_code.specs.Rows.{grown};
ghost use Rattle.cell_machine.specs.Machine.{index_below};

use sys_base::{Fault, Word};

/// The number as an index, where it is below a length.
pub(crate) fn index_below(number: i64, len: u16) -> Option<u16>
    ensures { result ≡ index_below number len }
{
    if number < 0 || number >= i64::from(len) {
        return None;
    }
    Some(number as u16)
}

/// The counter of a loop after a turn.
pub(crate) fn grown(value: u32, turns: u32) -> u32
    ensures { result ≡ grown value turns }
{
    if value < turns { value + 1 } else { value }
}

/// The one address where the test holds, and else the other.
pub(crate) fn choose(test: bool, one: u32, other: u32) -> u32
    ensures { result ≡ (if test then one else other) }
{
    if test { one } else { other }
}

/// The fault that is kept once this one comes.
pub(crate) fn first_kept(kept: Option<Fault>, fault: Fault) -> Option<Fault>
    ensures { result ≡ first_kept kept fault }
{
    match kept {
        Some(first) => Some(first),
        None => Some(fault),
    }
}

/// Whether a test takes the first arm.
pub(crate) fn takes_first(kept: Option<Fault>, test: Word) -> bool
    ensures { result ≡ takes_first kept test }
{
    match (kept, test) {
        (None, Word::Num(number)) => number != 0,
        _ => false,
    }
}

/// What a cell gives out in place of a value.
pub(crate) fn given(kept: Option<Fault>, value: Word) -> Word
    ensures { result ≡ given kept value }
{
    match kept {
        Some(fault) => Word::Fault(fault),
        None => value,
    }
}
