ghost use Rattle.std.specs.Prelude.{◌≡◌, ◌≤◌, ◌↔◌, []};
ghost use Rattle.sys_base.specs.declared.limits.TheConstants.{STEPS};
ghost use Rattle.cell_types.specs.Alike.{Alike};
ghost use Rattle.cell_types.specs.Code.{ProgramCode};
ghost use Rattle.cell_types.specs.Cost.{cells_cost};
ghost use Rattle.cell_types.specs.Sound.{IsSound};
ghost use Rattle.comm_sequence.specs.Differing.{all_differing};
ghost use Rattle.comm_sequence.specs.Sequences.{IsSequences, sequences_of};

use cell_types::few_communications;

/// A law: the arms of a program communicate alike exactly where no `if` is listed whose arms differ.
pub fn alike_where_none_differ()
    ensures { (program : ProgramCode) → (Alike program ↔ (all_differing program ≡ [])) }
{}

/// A law: the sequences of a sound program whose cost is within the limit keep what the type of sequences keeps.
pub fn sound_programs_have_sequences()
    ensures { (program : ProgramCode) → IsSound program → cells_cost program ≤ STEPS
        → IsSequences (sequences_of program) }
{
    few_communications();
}
