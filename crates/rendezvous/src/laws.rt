ghost use Rattle.std.specs.Prelude.{ℕ, ℤ, ◌≤◌, List};
ghost use Rattle.sys_base.specs.Held.{Streams};
ghost use Rattle.sys_base.specs.declared.limits.TheConstants.{STEPS};
ghost use Rattle.cell_types.specs.Alike.{Alike};
ghost use Rattle.cell_types.specs.Code.{ProgramCode};
ghost use Rattle.cell_types.specs.Cost.{cells_cost};
ghost use Rattle.cell_types.specs.Sound.{IsSound};
ghost use Rattle.comm_sequence.specs.BufferedOrder.{IsBufferedOrder};
ghost use Rattle.comm_sequence.specs.Sequences.{sequences_of};
ghost use Rattle.comm_sequence.specs.declared.comm.Comm.{Comm};
ghost use Rattle.rendezvous.specs.OneMeaning.{MeansOneThing, ReadAlike, SaysAlike};

use cell_types::alone_communicates;
use comm_sequence::sound_programs_have_sequences;

/// A law: what a cell alone writes and emits in its first communications depends only on the words that it reads among
/// them, where the arms of the program communicate alike.
pub fn cells_need_only_what_they_read()
    ensures { (program : ProgramCode) (cell : ℕ) (input : List ℤ) (n : ℕ) (v w : Streams) → Alike program
        → ReadAlike program cell n v w → SaysAlike program cell input n v w }
{}

/// A law: a sound program whose arms communicate alike, whose cost is within the limit, and whose lists have an order,
/// whatever its buffer, means one thing for all inputs. It speaks of no label, queue or route.
pub fn programs_mean_one_thing()
    ensures { (program : ProgramCode) (buffer : ℕ) (order : List Comm) (inputs : List (List ℤ))
        → IsSound program → Alike program → cells_cost program ≤ STEPS
        → IsBufferedOrder (sequences_of program).lists (sequences_of program).ends buffer order
        → MeansOneThing program inputs }
{
    alone_communicates();
    sound_programs_have_sequences();
    cells_need_only_what_they_read();
}
