//! What the proposed labels need beside all consistent ones, and what the answer to a text is.
ghost use Rattle.std.specs.Prelude.{ℕ, ◌≡◌, ◌≤◌, ◌↔◌, ◌⊎◌, List, length};
ghost use Rattle.cell_tree.specs.declared.source.Source.{Source};
ghost use Rattle.cell_types.specs.Code.{ProgramCode};
ghost use Rattle.cell_types.specs.Resolved.{program_of};
ghost use Rattle.comm_sequence.specs.Labels.{IsConsistent, IsProposal};
ghost use Rattle.comm_sequence.specs.Sequences.{sequences_of};
ghost use Rattle.refusals.specs.declared.refusal.Refusal.{Refusal};
ghost use Rattle.accept.specs.FirstRefusal.{FirstRefusal, HasTooFewQueues, PassesAll, need_trials};
ghost use Rattle.accept.specs.Labelled.{AreLabels, IsLabelled};
ghost use Rattle.accept.specs.Needs.{AreNeeds, FitQueues, IsForRoom, IsNeedRefused, IsTooFew, need_of};
ghost use Rattle.accept.specs.Source.{IsSource};
ghost use Rattle.accept.specs.declared.needing.NeedLine.{NeedLine};

use crate::laws::{existence_below, laws_below};
use labelling::proposed_labels_are_finest;
use queue_plan::{finer_labels_need_no_more, links_fit_by_need};

/// A law: all consistent labels of a program need at least as many queues on each link as the proposed ones.
pub fn proposed_labels_need_least()
    ensures { (program : ProgramCode) (proposed labels : List ℕ) (link : ℕ)
        → IsProposal (sequences_of program).lists (length program.messages) proposed
        → IsConsistent (sequences_of program).lists labels
        → need_of program proposed link ≤ need_of program labels link }
{
    proposed_labels_are_finest();
    finer_labels_need_no_more();
}

/// A law: where the source gives no labels, and the program has consistent ones, it is refused for too few queues
/// exactly where no consistent labels have each group within its link's queues.
pub fn too_few_for_all_labels()
    ensures { (program : ProgramCode) (own : List ℕ) → (IsLabelled program → ⊥) → AreLabels program own
        → IsConsistent (sequences_of program).lists own
        → (((r : Refusal) × HasTooFewQueues program r)
        ↔ ((labels : List ℕ) → IsConsistent (sequences_of program).lists labels → FitQueues program labels → ⊥)) }
{
    proposed_labels_need_least();
    links_fit_by_need();
}

/// A law: on a source that gives no labels and that has no refusal before that of its queues, this one comes exactly
/// where no consistent labels have each group within its link's queues.
pub fn queues_are_too_few_where_no_labels_fit()
    ensures { (text : List ℕ) (source : Source) → IsSource text source → PassesAll need_trials text
        → (IsLabelled (program_of source) → ⊥)
        → (((r : Refusal) × FirstRefusal text r × IsTooFew r)
        ↔ ((labels : List ℕ) → IsConsistent (sequences_of (program_of source)).lists labels
        → FitQueues (program_of source) labels → ⊥)) }
{
    laws_below();
    existence_below();
    too_few_for_all_labels();
}

/// A law: what `needs` refuses is the first refusal of the text, wherever that is not one of its queues or its bound.
pub fn needs_refuse_but_for_room()
    ensures { (text : List ℕ) (r : Refusal)
        → (IsNeedRefused text r ↔ (FirstRefusal text r × (IsForRoom r → ⊥))) }
{}

/// A law: there is an answer to every text: lines, or a refusal.
pub fn some_answer_of_needs()
    ensures { (text : List ℕ)
        → ((lines : List NeedLine) × AreNeeds text lines) ⊎ ((r : Refusal) × IsNeedRefused text r) }
{
    laws_below();
    existence_below();
}

/// A law: there is one answer at most to a text.
pub fn one_answer_of_needs()
    ensures lines { (text : List ℕ) (a b : List NeedLine) → AreNeeds text a → AreNeeds text b → a ≡ b }
    ensures refusal { (text : List ℕ) (r q : Refusal) → IsNeedRefused text r → IsNeedRefused text q → r ≡ q }
    ensures apart { (text : List ℕ) (lines : List NeedLine) (r : Refusal)
        → AreNeeds text lines → IsNeedRefused text r → ⊥ }
{
    laws_below();
}
