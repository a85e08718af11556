//! The bound on the steps of a program.
ghost use Rattle.std.specs.Prelude.{◌≡◌, ℕ, ◌+◌, ◌≤◌, length, sum_by};
ghost use Rattle.cell_lexer.specs.declared.limits.TheConstants.{PIECE_TOKENS};
ghost use Rattle.cell_types.specs.Cost.{cells_cost};
ghost use Rattle.cell_types.specs.Groups.{forwards, route};
ghost use Rattle.cell_types.specs.Typed.{plain};
ghost use Rattle.comm_sequence.specs.Sequences.{sequences_of};

use cell_types::Program;
use comm_sequence::Seqs;
use queue_plan::Groups;
use sys_base::{MESSAGES, STEPS};

/// The steps of the cells, the moves of words from one link to the next, and the groups of all links.
pub fn bound_of(program: &Program, seqs: &Seqs, groups: &Groups, steps: u32) -> u32
    requires seqs { seqs.now ≡ sequences_of (plain program.now) }
    requires steps { steps ≡ cells_cost (plain program.now) }
    requires few { steps ≤ STEPS }
    ensures { result ≡ cells_cost (plain program.now) + forwards (plain program.now) + sum_by length groups.now }
{
    short_routes(program);
    let bound = u64::from(steps) + forwards(program, seqs) + u64::from(groups.count());
    bound as u32
}

/// How often words move from one link to the next.
fn forwards(program: &Program, seqs: &Seqs) -> u64
    requires seqs { seqs.now ≡ sequences_of (plain program.now) }
    ensures { result ≡ forwards (plain program.now) }
{
    short_routes(program);
    let mut forwards = 0;
    for (index, message) in program.messages().iter().enumerate() {
        let words = u64::from(seqs.length(index as u16));
        forwards += words * (message.route.len() as u64 - 1);
    }
    forwards
}

/// A law: no route has more than 256 links.
fn short_routes(program: &Program)
    ensures { (message : ℕ) → length (route (plain program.now) message) ≤ PIECE_TOKENS }
{
    prove!(program.messages().len() <= MESSAGES);
}
