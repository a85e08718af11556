ghost use Rattle.std.specs.Prelude.{◌≡◌, ◌≤◌, ℕ, List, Option, EachIndex};
ghost use Rattle.comm_sequence.specs.BufferedOrder.{IsBufferedOrder};
ghost use Rattle.comm_sequence.specs.Sequences.{IsSequences, Sequences};
ghost use Rattle.comm_sequence.specs.declared.comm.Comm.{Comm};
ghost use Rattle.crossing_off.specs.Greedy.{fronts, left, rest, IsCrossed, IsStuck, MayAll};
ghost use Rattle.crossing_off.specs.Walk.{IsWalkOver};
ghost use Rattle.crossing_off.specs.declared.waits.Wait.{Wait};
ghost use Rattle.crossing_off.specs.declared.waits.WalkEnd.{WalkEnd};

/// A law: over any sequences and for any buffer, the greedy rule gives one list of operations at most.
pub fn one_greedy_order()
    ensures { (s : Sequences) (buffer : ℕ) (a b : List Comm) → IsCrossed s buffer a → IsCrossed s buffer b → a ≡ b }
{}

/// A law: the choice does not matter. Whatever is crossed at each step, in any order, as long as it may be crossed,
/// until nothing may be crossed any more: what is then left of each list is what the greedy rule leaves.
pub fn choice_does_not_matter()
    ensures { (s : Sequences) (buffer : ℕ) (any greedy : List Comm) → IsSequences s
        → MayAll s buffer any → IsStuck s buffer any → IsCrossed s buffer greedy
        → EachIndex s.lists (λ cell. rest s any cell ≡ rest s greedy cell) }
{}

/// A law: where there is an order for the buffer, of any kind, the greedy rule leaves nothing.
pub fn orders_leave_nothing()
    ensures { (s : Sequences) (buffer : ℕ) (order greedy : List Comm) → IsSequences s
        → IsBufferedOrder s.lists s.ends buffer order → IsCrossed s buffer greedy → left s greedy ≡ 0 }
{}

/// A law: where the greedy rule leaves nothing, its list is an order for the buffer.
pub fn nothing_left_is_an_order()
    ensures { (s : Sequences) (buffer : ℕ) (greedy : List Comm) → IsSequences s → IsCrossed s buffer greedy
        → left s greedy ≡ 0 → IsBufferedOrder s.lists s.ends buffer greedy }
{}

/// A law: over any sequences and what is left first in their lists, there is one walk at most.
pub fn one_walk()
    ensures { (s : Sequences) (fronts : List (Option Comm)) (a b : List Wait) (x y : WalkEnd)
        → IsWalkOver s fronts a x → IsWalkOver s fronts b y → (a ≡ b) × (x ≡ y) }
{}

/// A law: over the sequences of a program the greedy rule gives a list for each buffer, and where it leaves something,
/// there is a walk.
pub fn some_outcome()
    ensures order { (s : Sequences) (buffer : ℕ) → IsSequences s → (order : List Comm) × IsCrossed s buffer order }
    ensures walk { (s : Sequences) (crossed : List Comm) → IsSequences s → 1 ≤ left s crossed
        → (waits : List Wait) × (end : WalkEnd) × IsWalkOver s (fronts s crossed) waits end }
{}
