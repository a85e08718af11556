ghost use Rattle.std.specs.Prelude.{◌≡◌, ◌≤◌, ◌^◌, ◌<◌, IfOk, length};
ghost use Rattle.array_model.specs.Runs.{IsSure};
ghost use Rattle.array_model.specs.States.{IsCounted, cells};
ghost use Rattle.array_sim.specs.Simulations.{inputs_of};
ghost use Rattle.cell_code.specs.Images.{IsShaped};
ghost use Rattle.run_words.specs.Answers.{AnswersChoice, AnswersRun, OfFile};
ghost use Rattle.image_runs.specs.Made.{HasFewEntries, IsShortFile, file_of, schedule_of};
ghost use Rattle.image_runs.specs.Views.{HasLength, answer_of, choice_of};

use crate::making::{Schedule, make_run};
use crate::reading::{Reading, read_file};
use crate::telling::answer_of;
use array_drive::Trail;
use array_sim::Sim;
use cell_code::Image;
use run_words::RunVerdict;
use std::alloc::Global;
use sys_base::{Inputs, Memory};

/// Which schedule is asked for.
#[derive(Drop)]
pub enum Choice {
    /// Always the first enabled actor.
    Low,
    /// Always the last enabled actor.
    High,
    /// The enabled actors one after the other.
    Round,
    /// Drawn by a generator that is made of this number.
    Seeded(u64),
    /// The entries of a schedule file with these bytes; `None` where it is longer than a schedule may be.
    OfFile(Option<Vec<u8>>),
}

/// What is said of a run: a bad schedule is said on standard error, and all else on standard output.
#[derive(Drop)]
pub struct RunAnswer {
    pub verdict: RunVerdict,
    pub text: Vec<u8>,
}

/// Runs an image over inputs by the schedule that is asked for, and says how the run ended: its result line, and its
/// record where that is asked for. The capacity of each queue is the one asked for, and at least the image's buffer.
pub fn answer_run(
    alloc: Global,
    image: &Image,
    inputs: Inputs,
    asked: u8,
    recorded: bool,
    choice: Choice,
) -> Result<RunAnswer, Memory>
    requires shaped { IsShaped image.now }
    requires sure { IsSure image.now image.now.buffer }
    requires buffer { image.now.buffer ≤ 64 }
    requires some_words { 1 ≤ asked }
    requires most_words { asked ≤ 64 }
    requires lists { length inputs.cells ≡ cells image.now }
    requires counted { IsCounted image.now (inputs_of inputs.cells) }
    requires short { HasLength choice }
    ensures { IfOk result (λ answer.
        AnswersChoice image.now asked recorded inputs.cells (choice_of choice) (answer_of answer)) }
{
    let schedule = match choice {
        Choice::Low => Schedule::Low,
        Choice::High => Schedule::High,
        Choice::Round => Schedule::Round,
        Choice::Seeded(seed) => Schedule::Seeded(seed),
        Choice::OfFile(file) => return answer_file(alloc, image, inputs, asked, recorded, file),
    };
    answer_schedule(alloc, image, inputs, asked, recorded, schedule)
}

/// What is said for a schedule file: one that is wrong is told before anything runs.
fn answer_file(
    alloc: Global,
    image: &Image,
    inputs: Inputs,
    asked: u8,
    recorded: bool,
    file: Option<Vec<u8>>,
) -> Result<RunAnswer, Memory>
    requires shaped { IsShaped image.now }
    requires sure { IsSure image.now image.now.buffer }
    requires buffer { image.now.buffer ≤ 64 }
    requires some_words { 1 ≤ asked }
    requires most_words { asked ≤ 64 }
    requires lists { length inputs.cells ≡ cells image.now }
    requires counted { IsCounted image.now (inputs_of inputs.cells) }
    requires short { IsShortFile file }
    ensures { IfOk result (λ answer.
        AnswersChoice image.now asked recorded inputs.cells (OfFile (file_of file)) (answer_of answer)) }
{
    match read_file(alloc, file)? {
        Reading::Fits(entries) => {
            let schedule = Schedule::Recorded(entries);
            answer_schedule(alloc, image, inputs, asked, recorded, schedule)
        }
        Reading::Breaks(text) => Ok(RunAnswer {
            verdict: RunVerdict::BadSchedule,
            text,
        }),
    }
}

/// Makes the run of a schedule, and says how it ended.
fn answer_schedule(
    alloc: Global,
    image: &Image,
    inputs: Inputs,
    asked: u8,
    recorded: bool,
    schedule: Schedule,
) -> Result<RunAnswer, Memory>
    requires shaped { IsShaped image.now }
    requires sure { IsSure image.now image.now.buffer }
    requires buffer { image.now.buffer ≤ 64 }
    requires some_words { 1 ≤ asked }
    requires most_words { asked ≤ 64 }
    requires lists { length inputs.cells ≡ cells image.now }
    requires counted { IsCounted image.now (inputs_of inputs.cells) }
    requires few { HasFewEntries schedule }
    ensures { IfOk result (λ answer.
        AnswersRun image.now asked recorded inputs.cells (schedule_of schedule) (answer_of answer)) }
{
    let mut sim = Sim::new(alloc, image, inputs, asked.max(image.buffer))?;
    let mut trail = Trail::new(alloc, image.bound)?;
    let ending = make_run(&mut sim, &mut trail, schedule);
    answer_of(alloc, image, &sim, &trail, recorded, ending)
}
