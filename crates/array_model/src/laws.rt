ghost use Rattle.std.specs.Prelude.{◌≡◌, ◌↔◌, ◌<◌, ◌≤◌, ℕ, max, true, List, Contains};
ghost use Rattle.sys_base.specs.Held.{Streams};
ghost use Rattle.sys_base.specs.declared.actor.Actor.{Actor};
ghost use Rattle.cell_code.specs.Images.{IsShaped};
ghost use Rattle.cell_code.specs.declared.image.Image.{Image};
ghost use Rattle.array_model.specs.Holding.{HoldsAlways};
ghost use Rattle.array_model.specs.Meaning.{Agrees, HasOneMeaning, KeepsMeaning};
ghost use Rattle.array_model.specs.Regular.{IsRegular};
ghost use Rattle.array_model.specs.Runs.{IsFinished, IsRun, IsSure};
ghost use Rattle.array_model.specs.States.{ArrayState, Inputs, IsCounted, cells};
ghost use Rattle.array_model.specs.Steps.{enabled, is_enabled};

/// A law: where an image is regular for a buffer, every run of it is bounded, never stuck before its end, and ends
/// clean, whatever the input and whatever the capacity of the queues, from one and from that buffer on.
pub fn regular_images_are_sure()
    ensures { (image : Image) (buffer : ℕ) → IsRegular image buffer → IsSure image buffer }
{}

/// A law: a regular image has one meaning for each input: just one family of streams agrees.
pub fn regular_images_have_one_meaning()
    ensures { (image : Image) (buffer : ℕ) (inputs : Inputs) → IsRegular image buffer → IsCounted image inputs →
        HasOneMeaning image inputs }
{}

/// A law: every run of a regular image keeps its meaning. All that was written is the beginning of the streams that
/// agree, and what each cell has emitted is the beginning of what it emits alone under them; where the run is
/// finished it is the whole. So what is emitted depends neither on the schedule nor on the capacity.
pub fn every_run_keeps_the_meaning()
    ensures { (image : Image) (buffer : ℕ) (inputs : Inputs) (streams : Streams) (cap : ℕ) (run : List Actor)
        (last : ArrayState) →
        IsRegular image buffer → IsCounted image inputs → Agrees image inputs streams → max 1 buffer ≤ cap →
        IsRun image inputs cap run last → KeepsMeaning image inputs streams last }
{}

/// A law: any two finished runs of a regular image on one input have emitted the same, whatever the capacities and the
/// schedules.
pub fn finished_runs_agree()
    ensures { (image : Image) (buffer : ℕ) (inputs : Inputs) (cap other : ℕ) (run others : List Actor)
        (last end : ArrayState) → IsRegular image buffer → IsCounted image inputs →
        max 1 buffer ≤ cap → max 1 buffer ≤ other →
        IsRun image inputs cap run last → IsRun image inputs other others end →
        IsFinished image last → IsFinished image end →
        (c : ℕ) → c < cells image → (last.cell c).held.output ≡ (end.cell c).held.output }
{}

/// A law: in every state of every run of a regular image, no queue has more words than the capacity, no link has more
/// live messages than queues, and the marks tell how long each queue is.
pub fn every_state_holds()
    ensures { (image : Image) (buffer : ℕ) (inputs : Inputs) (cap : ℕ) (run : List Actor) (last : ArrayState) →
        IsRegular image buffer → IsCounted image inputs → IsRun image inputs cap run last → HoldsAlways image cap last }
{}

/// A law: an actor is enabled in a state exactly where it is in the list of the enabled ones.
pub fn enabled_actors_are_listed()
    ensures { (image : Image) (inputs : Inputs) (cap : ℕ) (s : ArrayState) (a : Actor) → IsShaped image →
        ((is_enabled image inputs cap s a ≡ true) ↔ Contains (enabled image inputs cap s) a) }
{}
