ghost use Rattle.std.specs.Prelude.{◌≡◌, ◌≤◌, ℕ, List, []};
ghost use Rattle.sys_base.specs.declared.limits.TheConstants.{STEPS};
ghost use Rattle.cell_code.specs.Images.{IsListed, IsShaped};
ghost use Rattle.cell_types.specs.Alike.{Alike};
ghost use Rattle.cell_types.specs.Code.{ProgramCode};
ghost use Rattle.cell_types.specs.Cost.{cells_cost};
ghost use Rattle.cell_types.specs.Groups.{lengths_of};
ghost use Rattle.cell_types.specs.Sound.{IsSound};
ghost use Rattle.comm_sequence.specs.BufferedOrder.{IsBufferedOrder};
ghost use Rattle.comm_sequence.specs.Labels.{IsConsistent};
ghost use Rattle.comm_sequence.specs.ProgramLabels.{AreLabels};
ghost use Rattle.comm_sequence.specs.Sequences.{sequences_of};
ghost use Rattle.comm_sequence.specs.declared.comm.Comm.{Comm};
ghost use Rattle.queue_plan.specs.Grouping.{all_groups};
ghost use Rattle.queue_plan.specs.Lacks.{lacks};
ghost use Rattle.array_model.specs.Regular.{IsRegular};
ghost use Rattle.array_model.specs.Runs.{IsSure};
ghost use Rattle.program_image.specs.Faithful.{IsFaithful};
ghost use Rattle.program_image.specs.ImageOf.{image_of};

use array_model::{
    every_run_keeps_the_meaning, regular_images_are_sure, regular_images_have_one_meaning,
};
use cell_codegen::{code_ends_alone, code_is_shaped};
use cell_types::alone_communicates;
use comm_sequence::sound_programs_have_sequences;
use queue_plan::{groups_by_link, groups_fit, groups_rise};

/// A law: the image of a sound program whose arms communicate alike is shaped, whatever the labels.
pub fn images_are_shaped()
    ensures { (program : ProgramCode) (labels : List ℕ) → IsSound program → Alike program
        → IsShaped (image_of program labels) }
{
    code_is_shaped();
}

/// A law: such an image is listed: it has a text.
pub fn images_are_listed()
    ensures { (program : ProgramCode) (labels : List ℕ) → IsSound program → Alike program
        → IsListed (image_of program labels) }
{
    code_is_shaped();
    groups_rise();
}

/// A law: the image of a program is regular for a buffer, where the program is sound, its arms communicate alike and
/// its cost is within the limit; where the labels are its messages' and never fall in a cell's list, and no link lacks
/// queues for their groups; and where its lists have an order with the buffer.
pub fn images_are_regular()
    ensures { (program : ProgramCode) (labels : List ℕ) (buffer : ℕ) (order : List Comm)
        → IsSound program → Alike program → cells_cost program ≤ STEPS
        → AreLabels program labels → IsConsistent (sequences_of program).lists labels
        → lacks (all_groups program labels (lengths_of program)) program.queues ≡ []
        → IsBufferedOrder (sequences_of program).lists (sequences_of program).ends buffer order
        → IsRegular (image_of program labels) buffer }
{
    alone_communicates();
    sound_programs_have_sequences();
    groups_by_link();
    groups_fit();
    code_ends_alone();
    code_is_shaped();
}

/// A law: so every run of the image of such a program is bounded, never stuck before its end, and ends clean, whatever
/// the input and whatever the capacity of the queues, from one and from the buffer on.
pub fn images_are_sure()
    ensures { (program : ProgramCode) (labels : List ℕ) (buffer : ℕ) (order : List Comm)
        → IsSound program → Alike program → cells_cost program ≤ STEPS
        → AreLabels program labels → IsConsistent (sequences_of program).lists labels
        → lacks (all_groups program labels (lengths_of program)) program.queues ≡ []
        → IsBufferedOrder (sequences_of program).lists (sequences_of program).ends buffer order
        → IsSure (image_of program labels) buffer }
{
    images_are_regular();
    regular_images_are_sure();
}

/// A law: and it does what the program says. For all inputs that have the counted words the program has one meaning,
/// and in every run each cell emits the beginning of its words there, and all of them where the run is finished.
pub fn images_are_faithful()
    ensures { (program : ProgramCode) (labels : List ℕ) (order : List Comm)
        → IsSound program → Alike program → cells_cost program ≤ STEPS
        → AreLabels program labels → IsConsistent (sequences_of program).lists labels
        → lacks (all_groups program labels (lengths_of program)) program.queues ≡ []
        → IsBufferedOrder (sequences_of program).lists (sequences_of program).ends program.buffer order
        → IsFaithful program labels (image_of program labels) }
{
    alone_communicates();
    sound_programs_have_sequences();
    code_ends_alone();
    regular_images_have_one_meaning();
    every_run_keeps_the_meaning();
    images_are_regular();
    images_are_sure();
}
