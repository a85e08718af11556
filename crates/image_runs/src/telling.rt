//! What is said of a run.
ghost use Rattle.std.specs.Prelude.{◌≡◌, ◌++◌, IfOk, List, ℕ};
ghost use Rattle.cell_code.specs.Images.{IsShaped};
ghost use Rattle.array_model.specs.States.{ArrayState};
ghost use Rattle.array_sim.specs.Simulations.{IsAfter, cap_in, inputs_in};
ghost use Rattle.run_words.specs.Answers.{Says, not_enabled_line};
ghost use Rattle.run_words.specs.Results.{IsResultLine, record_text};
ghost use Rattle.image_runs.specs.Made.{ending_of};
ghost use Rattle.image_runs.specs.Views.{answer_of};

use crate::answering::RunAnswer;
use crate::making::Ending;
use crate::reporting::result_line;
use array_drive::Trail;
use array_sim::Sim;
use cell_code::Image;
use run_words::RunVerdict;
use schedules::write_schedule;
use std::alloc::{AllocError, Global};
use sys_base::Memory;

/// What is said of the run that was made: its result line, and its record where that is asked for; or the entry that is
/// not enabled.
pub(crate) fn answer_of(
    alloc: Global,
    image: &Image,
    sim: &Sim<'_>,
    trail: &Trail,
    recorded: bool,
    ending: Ending,
) -> Result<RunAnswer, Memory>
    requires same { sim.now.array.image ≡ image.now }
    requires shaped { IsShaped image.now }
    ensures { IfOk result (λ answer. (last : ArrayState) → IsAfter sim.now trail.now.entries last →
        Says image.now (inputs_in sim.now.array) (cap_in sim.now.array) recorded trail.now.entries last (ending_of ending)
        (answer_of answer)) }
{
    let (verdict, text) = match ending {
        Ending::Finished => (
            RunVerdict::Done,
            told_text(alloc, image, sim, trail, recorded)?,
        ),
        Ending::Unfinished => (
            RunVerdict::Unfinished,
            told_text(alloc, image, sim, trail, recorded)?,
        ),
        Ending::NotEnabled { entry } => (RunVerdict::BadSchedule, not_enabled_line(alloc, entry)?),
    };
    Ok(RunAnswer { verdict, text })
}

/// The result line of the run that was made, with its record where that is asked for.
fn told_text(
    alloc: Global,
    image: &Image,
    sim: &Sim<'_>,
    trail: &Trail,
    recorded: bool,
) -> Result<Vec<u8>, Memory>
    requires same { sim.now.array.image ≡ image.now }
    requires shaped { IsShaped image.now }
    ensures { IfOk result (λ text. (last : ArrayState) → IsAfter sim.now trail.now.entries last →
        (line : List ℕ)
        × IsResultLine image.now (inputs_in sim.now.array) (cap_in sim.now.array) trail.now.entries last line
        × (text.items ≡ line ++ record_text recorded trail.now.entries)) }
{
    let mut text = result_line(alloc, image, sim)?;
    if recorded {
        let record = write_schedule(alloc, trail.entries())?;
        text.extend_from_slice(&record)?;
    }
    Ok(text)
}

/// The line on an entry that is not enabled.
fn not_enabled_line(alloc: Global, entry: u32) -> Result<Vec<u8>, AllocError>
    ensures { IfOk result (λ line. line.items ≡ not_enabled_line entry) }
{
    Ok(format!(in alloc; "schedule: entry {entry} is not enabled\n")?.into_bytes())
}
