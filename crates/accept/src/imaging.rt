//! What is made of a program without a refusal.
ghost use Rattle.std.specs.Prelude.{◌≡◌, ◌<◌, ◌≤◌, ◌^◌, ℕ, length, IfOk};
ghost use Rattle.cell_codegen.specs.Emission.{body_code};
ghost use Rattle.cell_types.specs.Groups.{lengths_of};
ghost use Rattle.cell_types.specs.Solo.{code_of};
ghost use Rattle.cell_types.specs.Typed.{plain};
ghost use Rattle.comm_sequence.specs.Sequences.{sequences_of};
ghost use Rattle.program_image.specs.ImageOf.{image_of};
ghost use Rattle.queue_plan.specs.Grouping.{all_groups};
ghost use Rattle.accept.specs.Built.{IsJudged};

use crate::building::Built;
use crate::judging::{Accepted, Plan};
use image_build::build_image;
use std::alloc::Global;
use sys_base::Memory;

/// What is made of a program without a refusal: its order and its image.
pub fn imaged(alloc: Global, accepted: Accepted) -> Result<Built, Memory>
    requires judged { IsJudged (plain accepted.program) accepted.order accepted.plan.labels.items accepted.plan.bound }
    requires seqs { accepted.seqs ≡ sequences_of (plain accepted.program) }
    requires each { length accepted.plan.labels.items ≡ length accepted.program.messages }
    requires groups { accepted.plan.groups
        ≡ all_groups (plain accepted.program) accepted.plan.labels.items (lengths_of (plain accepted.program)) }
    requires room { (cell : ℕ) → length (body_code (code_of (plain accepted.program) cell).body) < 2 ^ 32 }
    ensures program { IfOk result (λ b. b.program ≡ accepted.program) }
    ensures order { IfOk result (λ b. b.order ≡ accepted.order) }
    ensures image { IfOk result (λ b. b.image ≡ image_of (plain accepted.program) accepted.plan.labels.items) }
{
    let Accepted {
        program,
        seqs,
        order,
        plan,
    } = accepted;
    let Plan {
        labels,
        groups,
        bound,
    } = plan;
    let image = build_image(alloc, &program, &seqs, &labels, &groups, bound)?;
    Ok(Built {
        program,
        order,
        image,
    })
}
