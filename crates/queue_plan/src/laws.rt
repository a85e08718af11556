ghost use Rattle.std.specs.Prelude.{◌≡◌, ℕ, ◌*◌, ◌<◌, ◌≤◌, ◌↔◌, List, [], length, map, slice_get, slice_index, sum_by, Some, IsSomeAnd};
ghost use Rattle.sys_base.specs.Grid.{cell_count};
ghost use Rattle.cell_types.specs.Code.{ProgramCode};
ghost use Rattle.cell_types.specs.Groups.{greatest, groups, group_count, lengths_of, need, routes_of};
ghost use Rattle.queue_plan.specs.Grouping.{all_groups, groups_at};
ghost use Rattle.queue_plan.specs.Lacks.{lacks};
ghost use Rattle.queue_plan.specs.Members.{HasMember, IsUser};

/// A law: the groups at a link are those of the link, and there are as many as the bound on the steps of a program
/// counts.
pub fn groups_by_link()
    ensures at { (program : ProgramCode) (labels lengths : List ℕ) (link : ℕ) → link < 4 * cell_count program.grid
        → groups_at (all_groups program labels lengths) link ≡ groups (routes_of program) labels lengths link }
    ensures count { (program : ProgramCode) (labels : List ℕ)
        → sum_by length (all_groups program labels (lengths_of program)) ≡ group_count program labels }
{}

/// A law: the members of the groups of a link are its users: just the messages of a length of at least 1 whose route
/// has it.
pub fn users_are_grouped()
    ensures member { (routes : List (List ℕ)) (labels lengths : List ℕ) (link place message : ℕ)
        → HasMember (groups routes labels lengths link) place message → IsUser routes lengths link message }
    ensures grouped { (routes : List (List ℕ)) (labels lengths : List ℕ) (link message : ℕ)
        → IsUser routes lengths link message
        → (place : ℕ) × HasMember (groups routes labels lengths link) place message }
{}

/// A law: each group of a link has a member, its label is that of each member, and a later group has a greater label.
/// So no message is in two groups.
pub fn groups_rise()
    ensures filled { (routes : List (List ℕ)) (labels lengths : List ℕ) (link place : ℕ)
        → place < length (groups routes labels lengths link)
        → (message : ℕ) × HasMember (groups routes labels lengths link) place message }
    ensures label { (routes : List (List ℕ)) (labels lengths : List ℕ) (link place message : ℕ)
        → HasMember (groups routes labels lengths link) place message
        → IsSomeAnd (slice_get (groups routes labels lengths link) place)
        (λ group. group.0 ≡ slice_index labels message) }
    ensures rising { (routes : List (List ℕ)) (labels lengths : List ℕ) (link i j a b : ℕ) → i < j
        → HasMember (groups routes labels lengths link) i a → HasMember (groups routes labels lengths link) j b
        → slice_index labels a < slice_index labels b }
{}

/// A law: where no link lacks queues, each group of a link has at most as many members as the link has queues.
pub fn groups_fit()
    ensures { (links : List (List (ℕ × List ℕ))) (queues : List ℕ) (link place : ℕ) (group : ℕ × List ℕ)
        → lacks links queues ≡ [] → slice_get (groups_at links link) place ≡ Some group
        → length group.1 ≤ slice_index queues link }
{}

/// A law: no link lacks queues exactly where each has at least as many as its largest group has members.
pub fn links_fit_by_need()
    ensures { (links : List (List (ℕ × List ℕ))) (queues : List ℕ)
        → ((lacks links queues ≡ []) ↔ ((link : ℕ) → link < length links
        → greatest (map (λ group. length group.1) (groups_at links link)) ≤ slice_index queues link)) }
{}

/// A law: where labels that are equal for two messages are equal for them among other labels too, each link needs at
/// most as many queues for these labels as for the others.
pub fn finer_labels_need_no_more()
    ensures { (routes : List (List ℕ)) (fine coarse lengths : List ℕ) (link : ℕ)
        → ((a b : ℕ) → a < length routes → b < length routes → slice_index fine a ≡ slice_index fine b
        → slice_index coarse a ≡ slice_index coarse b)
        → need routes fine lengths link ≤ need routes coarse lengths link }
{}
