ghost use Rattle.std.specs.Prelude.{◌≡◌, IfOk, length};
ghost use Rattle.array_model.specs.States.{IsCounted, cells};
ghost use Rattle.image_runs.specs.Views.{HasLength, choice_of};
ghost use Rattle.program_image.specs.Faithful.{inputs_of};
ghost use Rattle.systole_top.specs.Commands.{choice_in, on_inputs, ran, runs, tree_of, verdict_of, with_input};
ghost use Rattle.systole_top.specs.Shape.{Run, asked_by, chosen_by};
ghost use Rattle.systole_top.specs.Tree.{Gives};
ghost use Rattle.systole_top.specs.bodies.Inputs.{IsCapacity, IsCountedIn};
ghost use Rattle.systole_top.specs.bodies.Ready.{IsReady, WhereReady};
ghost use Rattle.systole_top.specs.bodies.Runs.{Steps, Shows};
ghost use Rattle.systole_top.specs.bodies.Stops.{ended, given_by, made_of, plan_of, reply_of, side_of};
ghost use Rattle.systole_top.specs.declared.judgement.Judgement.TheVariants.{Accepted};

use crate::answer::{Answer, Side, Stop, Verdict};
use crate::check::refused_reply;
use crate::given::{Given, given_in};
use crate::judgement::{Judgement, judged};
use crate::read::read_file;
use crate::request::{RunWords, ScheduleWord};
use accept::Built;
use image_runs::{Choice, answer_run};
use run_words::{RunVerdict, runs_have_one_answer};
use std::alloc::Global;
use sys_base::{Inputs, SCHEDULE_BYTES};
use sys_outside::Shelf;

/// `run F IN CAP SCHED` and `run F IN CAP SCHED record`: the result of the run that the schedule makes over the image
/// of the source, for the input.
#[tactic(auto, using(crate::proofs::Trees::step_stop))]
pub fn run<S: Shelf>(alloc: Global, shelf: &mut S, words: &RunWords<'_>) -> Result<Answer, Stop>
    requires { IsCapacity words.now.capacity }
    ensures { Steps (S.held shelf.old) (S.held shelf.new) (S.faults shelf.old) (S.faults shelf.new)
        (tree_of (Run (asked_by words.now))) (ended reply_of result) }
{
    let judgement = judged(alloc, shelf, words.file)?;
    run_judged(alloc, shelf, judgement, words)
}

/// Goes on where the source is judged.
fn run_judged<S: Shelf>(
    alloc: Global,
    shelf: &mut S,
    judgement: Judgement<Built>,
    words: &RunWords<'_>,
) -> Result<Answer, Stop>
    requires ready { WhereReady judgement }
    requires asked { IsCapacity words.now.capacity }
    ensures { Steps (S.held shelf.old) (S.held shelf.new) (S.faults shelf.old) (S.faults shelf.new)
        (with_input words.now.input.now (runs (asked_by words.now)) (plan_of judgement)) (ended reply_of result) }
{
    match judgement {
        Judgement::Accepted(built) => run_built(alloc, shelf, &built, words),
        Judgement::Refused(refusal) => refused_reply(alloc, refusal),
    }
}

/// Goes on where the source is accepted.
#[tactic(auto, using(crate::proofs::Trees::step_stop))]
fn run_built<S: Shelf>(
    alloc: Global,
    shelf: &mut S,
    built: &Built,
    words: &RunWords<'_>,
) -> Result<Answer, Stop>
    requires ready { IsReady built.now }
    requires asked { IsCapacity words.now.capacity }
    ensures { Steps (S.held shelf.old) (S.held shelf.new) (S.faults shelf.old) (S.faults shelf.new)
        (with_input words.now.input.now (runs (asked_by words.now)) (Accepted (made_of built.now)))
        (ended reply_of result) }
{
    let given = given_in(alloc, shelf, &built.image, words.input)?;
    run_given(alloc, shelf, built, given, words)
}

/// Goes on where the input is read.
fn run_given<S: Shelf>(
    alloc: Global,
    shelf: &mut S,
    built: &Built,
    given: Given,
    words: &RunWords<'_>,
) -> Result<Answer, Stop>
    requires ready { IsReady built.now }
    requires counted { IsCountedIn built.now.image given }
    requires asked { IsCapacity words.now.capacity }
    ensures { Steps (S.held shelf.old) (S.held shelf.new) (S.faults shelf.old) (S.faults shelf.new)
        (on_inputs (runs (asked_by words.now) (made_of built.now)) (given_by given)) (ended reply_of result) }
{
    match given {
        Given::Taken(inputs) => run_taken(alloc, shelf, built, inputs, words),
        Given::Bad(line) => Ok(Answer {
            verdict: Verdict::BadInput,
            side: Side::Err,
            text: line,
        }),
    }
}

/// Goes on where the input gives words.
#[tactic(auto, using(crate::proofs::Trees::step_stop))]
fn run_taken<S: Shelf>(
    alloc: Global,
    shelf: &mut S,
    built: &Built,
    inputs: Inputs,
    words: &RunWords<'_>,
) -> Result<Answer, Stop>
    requires ready { IsReady built.now }
    requires lists { length inputs.cells ≡ cells built.now.image }
    requires counted { IsCounted built.now.image (inputs_of inputs.cells) }
    requires asked { IsCapacity words.now.capacity }
    ensures { Steps (S.held shelf.old) (S.held shelf.new) (S.faults shelf.old) (S.faults shelf.new)
        (runs (asked_by words.now) (made_of built.now) inputs.cells) (ended reply_of result) }
{
    let choice = choice_in(alloc, shelf, words.schedule)?;
    run_reply(alloc, built, inputs, words, choice)
}

/// The schedule that a word names, read where it is that of a file.
fn choice_in<S: Shelf>(
    alloc: Global,
    shelf: &mut S,
    schedule: ScheduleWord<'_>,
) -> Result<Choice, Stop>
    ensures given { Steps (S.held shelf.old) (S.held shelf.new) (S.faults shelf.old) (S.faults shelf.new)
        (choice_in (chosen_by schedule.entry)) (ended choice_of result) }
    ensures short { IfOk result HasLength }
{
    match schedule {
        ScheduleWord::Low => Ok(Choice::Low),
        ScheduleWord::High => Ok(Choice::High),
        ScheduleWord::Round => Ok(Choice::Round),
        ScheduleWord::Seeded(seed) => Ok(Choice::Seeded(seed)),
        ScheduleWord::InFile(name) => {
            Ok(Choice::OfFile(read_file(alloc, shelf, name, SCHEDULE_BYTES)?))
        }
    }
}

/// Runs the image and says how the run ended.
fn run_reply(
    alloc: Global,
    built: &Built,
    inputs: Inputs,
    words: &RunWords<'_>,
    choice: Choice,
) -> Result<Answer, Stop>
    requires ready { IsReady built.now }
    requires lists { length inputs.cells ≡ cells built.now.image }
    requires counted { IsCounted built.now.image (inputs_of inputs.cells) }
    requires asked { IsCapacity words.now.capacity }
    requires short { HasLength choice }
    ensures { Shows (ran (asked_by words.now) (made_of built.now) inputs.cells (choice_of choice))
        (ended reply_of result) }
{
    runs_have_one_answer();
    let answer = answer_run(
        alloc,
        &built.image,
        inputs,
        words.capacity,
        words.recorded,
        choice,
    )?;
    Ok(Answer {
        verdict: verdict_of(answer.verdict),
        side: side_of(answer.verdict),
        text: answer.text,
    })
}

fn verdict_of(verdict: RunVerdict) -> Verdict
    ensures { result ≡ verdict_of verdict }
{
    match verdict {
        RunVerdict::Done => Verdict::Done,
        RunVerdict::Unfinished => Verdict::Unfinished,
        RunVerdict::BadSchedule => Verdict::BadSchedule,
    }
}

/// A bad schedule is said on standard error.
fn side_of(verdict: RunVerdict) -> Side
    ensures { result ≡ side_of verdict }
{
    match verdict {
        RunVerdict::Done | RunVerdict::Unfinished => Side::Out,
        RunVerdict::BadSchedule => Side::Err,
    }
}
