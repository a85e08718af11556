ghost use Rattle.std.specs.Prelude.{◌≡◌, ◌<◌};
ghost use Rattle.pair_gen.specs.Generated.{place_of, receiver, sender};

use cell_tree::Place;

/// How many messages there are.
pub(crate) const MESSAGES: u8 = 24;

/// How many cells there are, in four rows of four.
pub(crate) const CELLS: u8 = 16;

/// The cell that sends a message.
pub(crate) fn sender(message: u8) -> u8
    requires { message < 24 }
    ensures { result ≡ sender message }
{
    5 * message % CELLS
}

/// The cell that receives a message.
pub(crate) fn receiver(message: u8) -> u8
    requires { message < 24 }
    ensures { result ≡ receiver message }
{
    let message = u32::from(message);
    ((5 * message + 1 + message * message % 15) % 16) as u8
}

/// The place of a cell.
pub(crate) fn place_of(cell: u8) -> Place
    ensures { result ≡ place_of cell }
{
    Place {
        row: u64::from(cell / 4),
        col: u64::from(cell % 4),
    }
}
