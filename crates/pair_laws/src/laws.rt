ghost use Rattle.std.specs.Prelude.{◌≡◌, ◌≤◌, ℕ};
ghost use Rattle.cell_tree.specs.Canonical.{canonical};
ghost use Rattle.cell_tree.specs.declared.source.Source.{Source};
ghost use Rattle.cell_types.specs.Resolved.{program_of};
ghost use Rattle.comm_sequence.specs.BufferedOrder.{IsBufferedOrder};
ghost use Rattle.comm_sequence.specs.Sequences.{sequences_of};
ghost use Rattle.accept.specs.FirstRefusal.{Accepts};
ghost use Rattle.accept.specs.Source.{IsSource};
ghost use Rattle.accept.specs.bodies.Laws.{Laws};
ghost use Rattle.pair_gen.specs.Generated.{generated};
ghost use Rattle.pair_gen.specs.Pairs.{messages_drawn};
ghost use Rattle.pair_laws.specs.Crossings.{crossings};
ghost use Rattle.pair_laws.specs.bodies.Laws.{LawsBelow};

use cell_lexer::one_outcome;
use cell_parser::{
    one_first_wrong, one_program, printed_keeps_limits, printed_text_reads_back, read_is_printable,
};
use cell_types::some_program;
use comm_sequence::{alike_where_none_differ, sound_programs_have_sequences};
use crossing_off::{one_greedy_order, one_walk};
use labelling::{one_proposal, proposed_are_consistent, some_proposal};
use queue_plan::{groups_by_link, links_fit_by_need};

/// A law: the canonical text of every generated source has no refusal.
pub fn generated_sources_are_accepted()
    ensures { (seed pairs : ℕ) → pairs ≤ 20000 → Accepts (canonical (generated seed pairs)) }
{
    laws_below();
    more_laws_below();
}

/// A law: a generated source has no buffer, and the write and then the read of each pair, in order, are an order of its
/// program for that. So crossing-off empties the program.
pub fn pairs_are_an_order()
    ensures buffer { (seed pairs : ℕ) (source : Source) → IsSource (canonical (generated seed pairs)) source
        → (program_of source).buffer ≡ 0 }
    ensures order { (seed pairs : ℕ) (source : Source) → IsSource (canonical (generated seed pairs)) source
        → IsBufferedOrder (sequences_of (program_of source)).lists (sequences_of (program_of source)).ends
        (program_of source).buffer (crossings (messages_drawn seed pairs)) }
{
    laws_below();
    more_laws_below();
}

/// The laws of the layers below by which there is at most one of each thing.
fn laws_below()
    ensures { Laws }
{
    one_outcome();
    one_program();
    one_first_wrong();
    alike_where_none_differ();
    one_greedy_order();
    one_walk();
    one_proposal();
    groups_by_link();
}

/// The laws of the layers below on printed texts, sound programs, labels and queues.
fn more_laws_below()
    ensures { LawsBelow }
{
    printed_text_reads_back();
    printed_keeps_limits();
    read_is_printable();
    some_program();
    sound_programs_have_sequences();
    some_proposal();
    proposed_are_consistent();
    groups_by_link();
    links_fit_by_need();
}
