//! What is told of a run.
ghost use Rattle.std.specs.Prelude.{◌≡◌, ◌<◌, ◌*◌, All, IfOk, List, length, map};
ghost use Rattle.sys_base.specs.Groups.{below};
ghost use Rattle.sys_base.specs.declared.actor.Actor.{Actor};
ghost use Rattle.cell_code.specs.Images.{IsShaped};
ghost use Rattle.cell_code.specs.declared.image.CellImage.{CellImage};
ghost use Rattle.cell_code.specs.declared.image.LinkImage.{LinkImage};
ghost use Rattle.array_model.specs.States.{ArrayState, cells};
ghost use Rattle.array_sim.specs.Simulations.{IsAfter, cap_in, inputs_in, peak_in, states_in};
ghost use Rattle.run_words.specs.Results.{IsResultLine, Tells};

use array_sim::Sim;
use cell_code::{CellImage, Image, LinkImage};
use std::alloc::{AllocError, Global};
use stream_io::{Report, result_text};
use sys_base::{Items, Memory, Outputs};

/// The result line of the run that was made.
pub(crate) fn result_line(alloc: Global, image: &Image, sim: &Sim<'_>) -> Result<Vec<u8>, Memory>
    requires same { sim.now.array.image ≡ image.now }
    requires shaped { IsShaped image.now }
    ensures { IfOk result (λ line. (run : List Actor) (last : ArrayState) → IsAfter sim.now run last →
        IsResultLine image.now (inputs_in sim.now.array) (cap_in sim.now.array) run last line.items) }
{
    let report = report_of(alloc, image, sim)?;
    result_text(alloc, &image.grid, &report)
}

/// What is told of the run that was made.
fn report_of(alloc: Global, image: &Image, sim: &Sim<'_>) -> Result<Report, Memory>
    requires same { sim.now.array.image ≡ image.now }
    requires shaped { IsShaped image.now }
    ensures tells { IfOk result (λ report. (run : List Actor) (last : ArrayState) → IsAfter sim.now run last →
        Tells image.now (inputs_in sim.now.array) (cap_in sim.now.array) run last report) }
    ensures outputs { IfOk result (λ report. length report.outputs.cells ≡ cells image.now) }
    ensures emits { IfOk result (λ report. length report.emits ≡ cells image.now) }
    ensures links { IfOk result (λ report. All (λ peak. peak.0 < 4 * cells image.now) report.peaks) }
{
    let emits = emits_of(alloc, image.cells.as_slice())?;
    Ok(Report {
        finished: sim.finished(),
        next: sim.enabled().first().copied(),
        outputs: outputs_of(alloc, image, sim)?,
        emits: Items::from_vec(emits),
        peaks: peaks_of(alloc, image, sim)?,
        steps: sim.steps(),
    })
}

/// The words that each cell has emitted.
fn outputs_of(alloc: Global, image: &Image, sim: &Sim<'_>) -> Result<Outputs, Memory>
    requires { sim.now.array.image ≡ image.now }
    ensures { IfOk result (λ outputs.
        outputs.cells ≡ map (λ c. (states_in sim.now.array c).held.output) (below (cells image.now))) }
{
    let mut cells = Items::new(alloc);
    for cell in 0..image.grid.cells() {
        cells.push(Items::from_slice(alloc, sim.output(cell))?)?;
    }
    Ok(Outputs { cells })
}

/// How many words each cell is to emit.
fn emits_of(alloc: Global, cells: &[CellImage]) -> Result<Vec<u32>, AllocError>
    ensures { IfOk result (λ emits. emits.items ≡ map (λ (cell : CellImage). cell.emits) cells.now) }
{
    cells.iter().map(|cell| cell.emits).collect(alloc)
}

/// The peak of each link with a group.
fn peaks_of(alloc: Global, image: &Image, sim: &Sim<'_>) -> Result<Items<(u16, u32)>, Memory>
    requires same { sim.now.array.image ≡ image.now }
    requires shaped { IsShaped image.now }
    ensures peaks { IfOk result (λ peaks.
        peaks ≡ map (λ (link : LinkImage). (link.link, peak_in sim.now.array link.link)) image.now.links) }
    ensures links { IfOk result (λ peaks. All (λ peak. peak.0 < 4 * cells image.now) peaks) }
{
    let mut peaks = Items::new(alloc);
    for LinkImage { link, .. } in image.links.as_slice() {
        peaks.push((*link, sim.peak(*link)))?;
    }
    Ok(peaks)
}
