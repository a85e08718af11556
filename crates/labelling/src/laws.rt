ghost use Rattle.std.specs.Prelude.{◌≡◌, ◌<◌, ◌↔◌, ◌⊎◌, ℕ, List, All, slice_index};
ghost use Rattle.comm_sequence.specs.Labels.{IsConsistent, IsProposal, Must};
ghost use Rattle.comm_sequence.specs.Sequences.{message_of};
ghost use Rattle.comm_sequence.specs.declared.comm.Comm.{Comm};
ghost use Rattle.labelling.specs.Falls.{IsFall};
ghost use Rattle.labelling.specs.declared.falls.Fall.{Fall};

/// A law: proposed labels are consistent, if each message in the lists has one.
pub fn proposed_are_consistent()
    ensures { (lists : List (List Comm)) (count : ℕ) (labels : List ℕ)
        → All (λ list. All (λ comm. message_of comm < count) list) lists
        → IsProposal lists count labels → IsConsistent lists labels }
{}

/// A law: for the same lists and as many messages the same labels are proposed.
pub fn one_proposal()
    ensures { (lists : List (List Comm)) (count : ℕ) (a b : List ℕ)
        → IsProposal lists count a → IsProposal lists count b → a ≡ b }
{}

/// A law: two messages have the same proposed label exactly where each must come no later than the other.
pub fn equal_where_neither_is_later()
    ensures { (lists : List (List Comm)) (count : ℕ) (labels : List ℕ) (a b : ℕ)
        → a < count → b < count → IsProposal lists count labels
        → ((slice_index labels a ≡ slice_index labels b) ↔ (Must lists a b × Must lists b a)) }
{}

/// A law: no consistent labels tell two messages apart that have the same proposed label.
pub fn proposed_labels_are_finest()
    ensures { (lists : List (List Comm)) (count : ℕ) (proposed labels : List ℕ) (a b : ℕ)
        → a < count → b < count → IsProposal lists count proposed → IsConsistent lists labels
        → slice_index proposed a ≡ slice_index proposed b → slice_index labels a ≡ slice_index labels b }
{}

/// A law: labels are proposed for lists whose messages are below a number, for that number of messages.
pub fn some_proposal()
    ensures { (lists : List (List Comm)) (count : ℕ) → All (λ list. All (λ comm. message_of comm < count) list) lists
        → (labels : List ℕ) × IsProposal lists count labels }
{}

/// A law: labels are consistent, or fall first somewhere.
pub fn consistent_or_fall()
    ensures { (lists : List (List Comm)) (labels : List ℕ)
        → IsConsistent lists labels ⊎ ((fall : Fall) × IsFall lists labels fall) }
{}
