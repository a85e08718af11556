ghost use Rattle.std.specs.Prelude.{◌≡◌, ◌↔◌, ℕ, ◌<◌, ◌≤◌, max, true, List, length, take, get_or, Contains};
ghost use Rattle.std.specs.List.{concat};
ghost use Rattle.sys_base.specs.Groups.{is_one_of};
ghost use Rattle.sys_base.specs.Paths.{Differ};
ghost use Rattle.sys_base.specs.declared.actor.Actor.{Actor};
ghost use Rattle.array_runs.specs.Alone.{IsRegularArray, RunsAlike};
ghost use Rattle.array_runs.specs.Enabled.{enabled};
ghost use Rattle.array_runs.specs.Frame.{Action, Frame, place_of};
ghost use Rattle.array_runs.specs.GroupOf.{group_of};
ghost use Rattle.array_runs.specs.Grouping.{GroupsCome};
ghost use Rattle.array_runs.specs.Holding.{HoldsAlways};
ghost use Rattle.array_runs.specs.Machines.{Array, Machine, IsArrayRun, IsArraySure, array_can, array_end, array_opening};
ghost use Rattle.array_runs.specs.Meaning.{Agrees, HasOneMeaning, IsOutput, KeepsMeaning};
ghost use Rattle.array_runs.specs.Queues.{SlicesMove};
ghost use Rattle.array_runs.specs.Regular.{IsGrouped, IsOrdered, IsRegular};
ghost use Rattle.array_runs.specs.Runs.{IsSure};

/// A law: where an array with fixed lists of actions is regular for a buffer, every run of it is bounded, never stuck
/// before its end, and ends clean, whatever the capacity of the queues, from that buffer on.
pub fn every_run_ends()
    ensures { (p : Frame) (actions : ℕ → List Action) (d : ℕ) → IsRegular p actions d → IsSure p actions d }
{}

/// A law: where an array of machines is regular for a buffer, every run of it is bounded, never stuck before its end,
/// and ends clean, whatever the capacity of the queues, from that buffer on, and whatever the words.
pub fn every_array_run_ends<X, W>()
    ensures { (p : Frame) (mc : Machine X W) (start : ℕ → X) (lists : ℕ → List Action) (cost : ℕ → ℕ) (d : ℕ) →
        IsRegularArray p mc start lists cost d → IsArraySure p mc start cost d }
{}

/// A law: where each cell runs alike whatever it reads, and the lists of what the cells write and read have an order,
/// whatever its buffer, just one family of streams agrees. It speaks of no route, queue, label or schedule.
pub fn one_meaning<X, W>()
    ensures { (p : Frame) (mc : Machine X W) (start : ℕ → X) (lists : ℕ → List Action) (cost : ℕ → ℕ) (d : ℕ) →
        RunsAlike p mc start lists cost → IsOrdered p lists d → HasOneMeaning p mc start }
{}

/// A law: every run of a regular array keeps the streams that agree. All that was written is the beginning of them,
/// each cell is in one of its states by itself, and what it has put out is the beginning of what it puts out by
/// itself; where all cells halt it is the whole.
pub fn every_run_keeps_the_meaning<X, W, O>()
    ensures { (p : Frame) (mc : Machine X W) (start : ℕ → X) (lists : ℕ → List Action) (cost : ℕ → ℕ) (d : ℕ) →
        IsRegularArray p mc start lists cost d →
        (output : X → List O) → IsOutput mc output → (v : ℕ → List W) → Agrees p mc start v →
        (cap : ℕ) (run : List Actor) → max 1 d ≤ cap → IsArrayRun p mc cap (array_opening start) run →
        KeepsMeaning p mc start output v (array_end p mc (array_opening start) run) }
{}

/// A law: in every state of every run of a regular array, no queue has more words than the capacity, no link has more
/// live messages than queues, and the marks of each message are in order.
pub fn every_state_holds<X, W>()
    ensures { (p : Frame) (mc : Machine X W) (start : ℕ → X) (lists : ℕ → List Action) (cost : ℕ → ℕ) (d : ℕ) →
        IsRegularArray p mc start lists cost d →
        (cap : ℕ) (run : List Actor) → IsArrayRun p mc cap (array_opening start) run →
        HoldsAlways p cap (array_end p mc (array_opening start) run) }
{}

/// A law: an actor has a step in a state exactly where it is in the list of those that have one.
pub fn enabled_actors_are_listed<X, W>()
    ensures { (p : Frame) (mc : Machine X W) (cap : ℕ) (a : Array X W) (x : Actor) →
        ((array_can p mc cap a x ≡ true) ↔ Contains (enabled p mc cap a) x) }
{}

/// A law: what a write, a move of a word and a read do to a queue, where it is a slice of all that was written to its
/// message.
pub fn queues_are_slices<W>()
    ensures { SlicesMove W }
{}

/// A law: a message of some group is in the first groups of a link exactly where its group's number is below their
/// count.
pub fn bound_by_number()
    ensures { (m : ℕ) (groups : List (List ℕ)) (n : ℕ) → is_one_of (concat groups) m ≡ true →
        ((is_one_of (concat (take n groups)) m ≡ true) ↔ (group_of m groups < n)) }
{}

/// A law: where the groups come of routes, labels and lengths, and no link has fewer queues than its need, they are
/// as a regular array has them.
pub fn groups_are_regular()
    ensures { (p : Frame) (routes : List (List ℕ)) (labels lengths : List ℕ) → GroupsCome p routes labels lengths →
        IsGrouped p }
{}

/// A law: a route that uses no link twice goes by each of its links at just one hop.
pub fn routes_use_links_once()
    ensures { (links : List ℕ) (i : ℕ) → Differ links → i < length links → place_of (get_or links i 0) links ≡ i }
{}
