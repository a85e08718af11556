ghost use Rattle.std.specs.Prelude.{◌≡◌, ◌↔◌, ◌<◌, ◌≤◌, ◌+◌, ◌++◌, ℕ, max, List, [], Option, length};
ghost use Rattle.rand_pcg.specs.Lcg.{Lcg};
ghost use Rattle.sys_base.specs.declared.actor.Actor.{Actor};
ghost use Rattle.cell_code.specs.Images.{IsShaped};
ghost use Rattle.cell_code.specs.declared.image.Image.{Image};
ghost use Rattle.array_model.specs.Runs.{IsFinished, IsRun, IsSure};
ghost use Rattle.array_model.specs.States.{ArrayState, Inputs, IsCounted, opening};
ghost use Rattle.array_model.specs.Steps.{enabled};
ghost use Rattle.schedules.specs.Picks.{PicksRecorded};
ghost use Rattle.schedules.specs.Recording.{Recording};
ghost use Rattle.schedules.specs.declared.chooser.Pick.TheVariants.{Stop};
ghost use Rattle.schedules.specs.declared.recorded.Standing.TheVariants.{Running, Ended};
ghost use Rattle.schedules.specs.declared.sides.High.{High};
ghost use Rattle.schedules.specs.declared.sides.Low.{Low};
ghost use Rattle.array_picks.specs.Picked.{NeverStops, PicksOneRun, PicksRun};
ghost use Rattle.array_picks.specs.Replays.{PicksNext, Replays, ReplaysOnce};

use schedules::{Chooser, High, Low, Recorded, Round, Seeded};

/// A law: over an image that is sure, each built-in schedule picks just one whole run, whatever it has picked before,
/// for each input with the counted words and each capacity from the least one on.
pub fn each_schedule_picks_one_run()
    ensures low { (image : Image) (least cap : ℕ) (inputs : Inputs) (schedule : Low) →
        IsSure image least → IsCounted image inputs → max 1 least ≤ cap →
        PicksOneRun ⟦<Low as Chooser>⟧.picks image inputs cap schedule }
    ensures high { (image : Image) (least cap : ℕ) (inputs : Inputs) (schedule : High) →
        IsSure image least → IsCounted image inputs → max 1 least ≤ cap →
        PicksOneRun ⟦<High as Chooser>⟧.picks image inputs cap schedule }
    ensures round { (image : Image) (least cap : ℕ) (inputs : Inputs) (last : Option Actor) →
        IsSure image least → IsCounted image inputs → max 1 least ≤ cap →
        PicksOneRun ⟦<Round as Chooser>⟧.picks image inputs cap last }
    ensures seeded { (image : Image) (least cap : ℕ) (inputs : Inputs) (generator : Lcg) →
        IsSure image least → IsCounted image inputs → max 1 least ≤ cap →
        PicksOneRun ⟦<Seeded as Chooser>⟧.picks image inputs cap generator }
{}

/// A law: no built-in schedule ever stops.
pub fn built_in_schedules_never_stop()
    ensures low { NeverStops ⟦<Low as Chooser>⟧.picks }
    ensures high { NeverStops ⟦<High as Chooser>⟧.picks }
    ensures round { NeverStops ⟦<Round as Chooser>⟧.picks }
    ensures seeded { NeverStops ⟦<Seeded as Chooser>⟧.picks }
{}

/// A law: each list of entries makes just one run over an image, and leads no further for just one reason.
pub fn entries_make_one_run()
    ensures { (image : Image) (inputs : Inputs) (cap : ℕ) (entries : List Actor) →
        ReplaysOnce image inputs cap entries }
{}

/// A law: what a schedule picks is a run; and a run that entries make has the first of them, and leaves the others.
pub fn picked_runs_are_runs<C: Chooser>()
    ensures picked { (image : Image) (inputs : Inputs) (cap : ℕ) (value left : C) (run : List Actor)
        (last : ArrayState) →
        PicksRun C.picks image inputs cap (opening image) value run last left → IsRun image inputs cap run last }
    ensures taken { (image : Image) (inputs : Inputs) (cap : ℕ) (entries left run : List Actor) (last : ArrayState) →
        PicksRun PicksNext image inputs cap (opening image) entries run last left →
        IsRun image inputs cap run last × (entries ≡ run ++ left) }
{}

/// A law: a run, held as entries, makes itself. So does a run that a schedule picks.
pub fn runs_replay_themselves<C: Chooser>()
    ensures ended { (image : Image) (inputs : Inputs) (cap : ℕ) (run : List Actor) (last : ArrayState) →
        IsShaped image → IsRun image inputs cap run last → enabled image inputs cap last ≡ [] →
        Replays image inputs cap run run last [] Running }
    ensures stopped { (image : Image) (inputs : Inputs) (cap : ℕ) (run : List Actor) (last : ArrayState) →
        IsShaped image → IsRun image inputs cap run last → 0 < length (enabled image inputs cap last) →
        Replays image inputs cap run run last [] Ended }
    ensures picked_ended { (image : Image) (inputs : Inputs) (cap : ℕ) (value left : C) (run : List Actor)
        (last : ArrayState) → PicksRun C.picks image inputs cap (opening image) value run last left →
        enabled image inputs cap last ≡ [] → Replays image inputs cap run run last [] Running }
    ensures picked_stopped { (image : Image) (inputs : Inputs) (cap : ℕ) (value left : C) (run : List Actor)
        (last : ArrayState) → PicksRun C.picks image inputs cap (opening image) value run last left →
        0 < length (enabled image inputs cap last) → Replays image inputs cap run run last [] Ended }
{}

/// A law: a recorded schedule picks what its entries make. Where it has taken none before, it has then taken as many
/// as the run has steps; and it stops where its entries lead no further, for the same reason.
pub fn recorded_picks_are_entries()
    ensures taken { (image : Image) (inputs : Inputs) (cap : ℕ) (before after : Recording) (run : List Actor)
        (last : ArrayState) →
        PicksRun ⟦<Recorded as Chooser>⟧.picks image inputs cap (opening image) before run last after →
        PicksRun PicksNext image inputs cap (opening image) before.left run last after.left }
    ensures counted { (image : Image) (inputs : Inputs) (cap : ℕ) (before after : Recording) (run : List Actor)
        (last : ArrayState) →
        PicksRun ⟦<Recorded as Chooser>⟧.picks image inputs cap (opening image) before run last after →
        after.taken ≡ before.taken + length run }
    ensures ended { (image : Image) (inputs : Inputs) (cap : ℕ) (before after : Recording) (run : List Actor)
        (last : ArrayState) →
        PicksRun ⟦<Recorded as Chooser>⟧.picks image inputs cap (opening image) before run last after →
        enabled image inputs cap last ≡ [] → Replays image inputs cap before.left run last after.left Running }
    ensures stopped { (image : Image) (inputs : Inputs) (cap : ℕ) (before after stopped : Recording) (run : List Actor)
        (last : ArrayState) →
        PicksRun ⟦<Recorded as Chooser>⟧.picks image inputs cap (opening image) before run last after →
        before.taken ≡ 0 → 0 < length (enabled image inputs cap last) →
        PicksRecorded after (enabled image inputs cap last) Stop stopped →
        Replays image inputs cap before.left run last stopped.left stopped.standing }
{}

/// A law: over a shaped image that is sure, nothing is enabled exactly where a run is finished.
pub fn runs_end_finished()
    ensures { (image : Image) (least cap : ℕ) (inputs : Inputs) (run : List Actor) (last : ArrayState) →
        IsShaped image → IsSure image least → IsCounted image inputs → max 1 least ≤ cap →
        IsRun image inputs cap run last →
        ((enabled image inputs cap last ≡ []) ↔ IsFinished image last) }
{}
