ghost use Rattle.std.specs.Prelude.{◌≡◌, ◌≤◌, ◌⊎◌, ℕ, ℤ, max, true, Bool, List, Option, Some};
ghost use Rattle.sys_base.specs.Grid.{IsExtent};
ghost use Rattle.sys_base.specs.declared.actor.Actor.{Actor};
ghost use Rattle.cell_code.specs.Images.{IsShaped};
ghost use Rattle.cell_code.specs.declared.image.Image.{Image};
ghost use Rattle.array_model.specs.Runs.{IsFinished, IsRun, IsSure};
ghost use Rattle.array_model.specs.States.{ArrayState, Inputs, IsCounted};
ghost use Rattle.array_sim.specs.Simulations.{inputs_of};
ghost use Rattle.run_words.specs.Answers.{AnswersChoice, Choice, OfFile, ReadsSchedule, RunAnswer, Says, capacity};
ghost use Rattle.run_words.specs.Once.{HasJustOne, MakesOneRun};
ghost use Rattle.run_words.specs.Schedules.{Ending, Makes, Schedule, Finished, Unfinished};

use array_model::enabled_actors_are_listed;
use array_picks::{
    each_schedule_picks_one_run, entries_make_one_run, picked_runs_are_runs, runs_end_finished,
    runs_replay_themselves,
};
use routes::path_bounds;
use schedules::{High, Low, Round, Seeded, one_reading};
use stream_io::one_line;

/// A law: over an image that is sure, each schedule makes just one run, for each input with the counted words and each
/// capacity from the least one on.
pub fn each_schedule_makes_one_run()
    ensures { (image : Image) (least cap : ℕ) (inputs : Inputs) (schedule : Schedule) →
        IsSure image least → IsCounted image inputs → max 1 least ≤ cap → MakesOneRun image inputs cap schedule }
{
    each_schedule_picks_one_run();
    entries_make_one_run();
}

/// A law: what a schedule makes is a run; and over a shaped image that is sure it ends as finished just where each
/// cell is at its end.
pub fn schedules_make_runs()
    ensures is_run { (image : Image) (inputs : Inputs) (cap : ℕ) (schedule : Schedule) (run : List Actor)
        (last : ArrayState) (ending : Ending) →
        Makes image inputs cap schedule run last ending → IsRun image inputs cap run last }
    ensures finished { (image : Image) (least cap : ℕ) (inputs : Inputs) (schedule : Schedule) (run : List Actor)
        (last : ArrayState) →
        IsShaped image → IsSure image least → IsCounted image inputs → max 1 least ≤ cap →
        Makes image inputs cap schedule run last Finished → IsFinished image last }
    ensures unfinished { (image : Image) (least cap : ℕ) (inputs : Inputs) (schedule : Schedule) (run : List Actor)
        (last : ArrayState) →
        IsShaped image → IsSure image least → IsCounted image inputs → max 1 least ≤ cap →
        Makes image inputs cap schedule run last Unfinished → IsFinished image last → ⊥ }
{
    picked_runs_are_runs::<Low>();
    picked_runs_are_runs::<High>();
    picked_runs_are_runs::<Round>();
    picked_runs_are_runs::<Seeded>();
    runs_end_finished();
}

/// A law: the bytes of a schedule file are read as just one thing.
pub fn schedule_files_have_one_reading()
    ensures { (file : Option (List ℕ)) → HasJustOne (ReadsSchedule file) }
{
    one_reading();
}

/// A law: over a shaped image that is sure, `run` has just one answer for inputs with the counted words, whatever the
/// bytes of the schedule file are.
pub fn runs_have_one_answer()
    ensures { (image : Image) (least asked : ℕ) (recorded : Bool) (lists : List (List ℤ)) (choice : Choice) →
        IsShaped image → IsSure image least → IsCounted image (inputs_of lists) →
        max 1 least ≤ capacity image asked →
        HasJustOne (AnswersChoice image asked recorded lists choice) }
{
    each_schedule_makes_one_run();
    schedules_make_runs();
    schedule_files_have_one_reading();
    runs_end_finished();
}

/// A law: over a shaped image whose grid has an extent, what `run` prints of a run with its record, held as a schedule
/// file, gives the same answer again.
pub fn records_replay()
    ensures { (image : Image) (asked : ℕ) (lists : List (List ℤ)) (schedule : Schedule) (run : List Actor)
        (last : ArrayState) (ending : Ending) (answer : RunAnswer) →
        IsExtent image.grid → IsShaped image → (ending ≡ Finished) ⊎ (ending ≡ Unfinished) →
        Makes image (inputs_of lists) (capacity image asked) schedule run last ending →
        Says image (inputs_of lists) (capacity image asked) true run last ending answer →
        AnswersChoice image asked true lists (OfFile (Some answer.out)) answer }
{
    schedules_make_runs();
    runs_replay_themselves::<Low>();
    enabled_actors_are_listed();
    path_bounds();
    one_line();
}
