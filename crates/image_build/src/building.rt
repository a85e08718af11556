ghost use Rattle.std.specs.Prelude.{◌≡◌, ◌<◌, ◌^◌, ℕ, length, IfOk};
ghost use Rattle.cell_types.specs.Groups.{bound, lengths_of};
ghost use Rattle.cell_types.specs.Solo.{code_of};
ghost use Rattle.cell_types.specs.Typed.{plain};
ghost use Rattle.comm_sequence.specs.Sequences.{sequences_of};
ghost use Rattle.queue_plan.specs.Grouping.{all_groups};
ghost use Rattle.cell_codegen.specs.Emission.{body_code};
ghost use Rattle.program_image.specs.ImageOf.{image_of};

use crate::cells::cell_images;
use crate::links::link_images;
use crate::messages::message_images;
use cell_code::Image;
use cell_types::Program;
use comm_sequence::Seqs;
use queue_plan::Groups;
use std::alloc::Global;
use sys_base::Memory;

/// The image of a program, from its sequences, the labels of its messages, the groups of its links and the bound on its
/// steps. Its time is linear in the image.
pub fn build_image(
    alloc: Global,
    program: &Program,
    seqs: &Seqs,
    labels: &[u16],
    groups: &Groups,
    steps: u32,
) -> Result<Image, Memory>
    requires seqs { seqs.now ≡ sequences_of (plain program.now) }
    requires labels { length labels.now ≡ length program.now.messages }
    requires groups { groups.now ≡ all_groups (plain program.now) labels.now (lengths_of (plain program.now)) }
    requires steps { steps ≡ bound (plain program.now) labels.now }
    requires room { (cell : ℕ) → length (body_code (code_of (plain program.now) cell).body) < 2 ^ 32 }
    ensures { IfOk result (λ image. image ≡ image_of (plain program.now) labels.now) }
{
    let messages = message_images(alloc, program, seqs, labels)?;
    let links = link_images(alloc, program, labels, groups)?;
    let cells = cell_images(alloc, program, seqs)?;
    Ok(Image {
        grid: program.grid(),
        buffer: program.buffer(),
        bound: steps,
        messages,
        links,
        cells,
    })
}
