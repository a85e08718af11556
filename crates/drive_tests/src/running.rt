//! A schedule drives the image of a source.
ghost use Rattle.std.specs.Prelude.{◌≡◌, ◌≤◌, max};
ghost use Rattle.array_sim.specs.Simulations.{cap_in};

use crate::images::{image, inputs};
use array_drive::{Driven, Trail, drive};
use array_sim::Sim;
use cell_code::Image;
use schedules::{Chooser, write_schedule};
use std::alloc::{AllocError, Global};
use std::test::Fail;
use sys_base::Word;

/// What a run has come to: how it has ended, its steps, their text, the words that the cells have emitted, and the
/// peaks of the links that had a word.
#[derive(Debug, Drop)]
pub struct Outcome {
    pub driven: Driven,
    pub finished: bool,
    pub steps: u32,
    pub record: Vec<u8>,
    pub outputs: Vec<(u16, Word)>,
    pub peaks: Vec<(u16, u32)>,
}

/// The run of a source that a schedule picks, in queues that are as small as can be. The first cell takes these words.
pub fn run<C: Chooser>(
    alloc: Global,
    source: &[u8],
    first: &[i64],
    chooser: &mut C,
) -> Result<Outcome, Fail> {
    let image = image(alloc, source)?;
    let inputs = inputs(alloc, &image, first)?;
    let mut sim = Sim::new(alloc, &image, inputs, image.buffer.max(1))?;
    let mut trail = Trail::new(alloc, image.bound)?;
    let driven = drive(&mut sim, chooser, &mut trail);
    Ok(Outcome {
        driven,
        finished: sim.finished(),
        steps: sim.steps(),
        record: write_schedule(alloc, trail.entries())?,
        outputs: outputs(alloc, &image, &sim)?,
        peaks: peaks(alloc, &image, &sim)?,
    })
}

/// The words that were emitted, each with its cell.
fn outputs(alloc: Global, image: &Image, sim: &Sim) -> Result<Vec<(u16, Word)>, AllocError>
    requires { sim.now.array.image ≡ image.now }
{
    let mut outputs = Vec::new(alloc);
    for cell in 0..image.grid.cells() {
        for word in sim.output(cell) {
            outputs.push((cell, *word))?;
        }
    }
    Ok(outputs)
}

/// The peaks above 0, each with its link.
fn peaks(alloc: Global, image: &Image, sim: &Sim) -> Result<Vec<(u16, u32)>, AllocError>
    requires { sim.now.array.image ≡ image.now }
{
    let mut peaks = Vec::new(alloc);
    for link in 0..4 * image.grid.cells() {
        let peak = sim.peak(link);
        if peak > 0 {
            peaks.push((link, peak))?;
        }
    }
    Ok(peaks)
}
