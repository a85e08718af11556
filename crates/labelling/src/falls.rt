//! Where labels fall.
ghost use Rattle.std.specs.Prelude.{◌≡◌, ◌<◌, ◌≤◌, ◌^◌, ◌↔◌, IsSome, IfSome, [], length, slice_index_or, All, MatchOption};
ghost use Rattle.comm_sequence.specs.Labels.{IsConsistent};
ghost use Rattle.comm_sequence.specs.Sequences.{message_of};
ghost use Rattle.labelling.specs.Falls.{FallsAt, IsFall, NeverFalls, NoFallBefore};

use comm_sequence::{Cursor, Seqs};

/// Where a label falls (`docs/model.md`, "Labels"): in the list of a cell, the label of an operation's message is
/// below that of the message of the operation just before it.
///
/// The ranges are those of a fall that `check` gives.
#[derive(Clone, Copy, Debug, PartialEq, Eq)]
pub struct Fall {
    /// The index of the cell, below the number of cells.
    pub cell: u16,
    /// The place of the later operation in the cell's list, counted from 0; it is at least 1.
    pub at: u32,
    /// The index of the earlier operation's message, below the number of messages.
    pub before: u16,
    /// The index of the later operation's message, below the number of messages.
    pub after: u16,
}

/// The first fall of the least cell that has one (`docs/model.md`, "Labels"); `None` exactly where the labels are
/// consistent: where in each cell's list the label of each message is at most that of the next one.
///
/// `labels` has one label for each message of `seqs`, at the message's index.
///
/// It passes over the lists once at most, and takes no memory.
pub fn check(seqs: &Seqs, labels: &[u16]) -> Option<Fall>
    requires { length labels.now ≡ length seqs.now.ends }
    ensures fall { IfSome result (IsFall seqs.now.lists labels.now) }
    ensures consistent { (IsSome result → ⊥) ↔ IsConsistent seqs.now.lists labels.now }
{
    for cell in 0..seqs.cells() {
        if let Some(fall) = fall_in(seqs.cursor(cell), cell, labels) {
            return Some(fall);
        }
    }
    None
}

/// The first fall in the list of a cell.
fn fall_in(mut cursor: Cursor<'_>, cell: u16, labels: &[u16]) -> Option<Fall>
    requires messages { All (λ comm. message_of comm < length labels.now) cursor }
    requires few { length cursor < 2 ^ 32 }
    ensures { MatchOption result (NeverFalls cursor.entry labels.now)
        (λ fall. (fall.cell ≡ cell) × FallsAt cursor.entry labels.now fall.at fall.before fall.after
        × NoFallBefore cursor.entry labels.now fall.at) }
{
    let mut before = cursor.next()?.message();
    let mut at = 1;
    while let Some(operation) = cursor.next() {
        let after = operation.message();
        if labels[after as usize] < labels[before as usize] {
            return Some(Fall {
                cell,
                at,
                before,
                after,
            });
        }
        before = after;
        at += 1;
    }
    None
}
