ghost use Rattle.std.specs.Prelude.{◌≡◌, ◌≤◌, ◌⊎◌, ℕ, List};
ghost use Rattle.sys_base.specs.declared.limits.TheConstants.{STEPS};
ghost use Rattle.cell_code.specs.Images.{IsListed, IsShaped};
ghost use Rattle.cell_code.specs.declared.image.Image.{Image};
ghost use Rattle.cell_tree.specs.declared.source.Source.{Source};
ghost use Rattle.cell_types.specs.Alike.{Alike};
ghost use Rattle.cell_types.specs.Cost.{cells_cost};
ghost use Rattle.cell_types.specs.Resolved.{program_of};
ghost use Rattle.cell_types.specs.Typed.{plain};
ghost use Rattle.comm_sequence.specs.BufferedOrder.{IsBufferedOrder};
ghost use Rattle.comm_sequence.specs.Sequences.{sequences_of};
ghost use Rattle.comm_sequence.specs.declared.comm.Comm.{Comm};
ghost use Rattle.program_image.specs.Faithful.{IsFaithful};
ghost use Rattle.program_image.specs.ImageOf.{image_of};
ghost use Rattle.refusals.specs.declared.refusal.Refusal.{Refusal};
ghost use Rattle.accept.specs.Built.{IsBuilt};
ghost use Rattle.accept.specs.FirstRefusal.{Accepts, FirstRefusal};
ghost use Rattle.accept.specs.Image.{IsImageOf};
ghost use Rattle.accept.specs.Labelled.{AreLabels};
ghost use Rattle.accept.specs.Source.{IsSource};
ghost use Rattle.accept.specs.declared.building.Built.{Built};
ghost use Rattle.accept.specs.bodies.Laws.{CodeLaws, Existence, Laws};

use cell_codegen::code_is_sized;
use cell_lexer::one_outcome;
use cell_parser::{few_nodes, one_first_wrong, one_program, read_is_printable, some_limit};
use cell_types::few_instructions;
use comm_sequence::{alike_where_none_differ, sound_programs_have_sequences};
use crossing_off::{nothing_left_is_an_order, one_greedy_order, one_walk, orders_leave_nothing};
use labelling::{consistent_or_fall, one_proposal, some_proposal};
use program_image::{images_are_faithful, images_are_listed, images_are_shaped};
use queue_plan::groups_by_link;

/// A law: a text has at most one first refusal, and none where it is accepted.
pub fn one_first_refusal()
    ensures one { (text : List ℕ) (r q : Refusal) → FirstRefusal text r → FirstRefusal text q → r ≡ q }
    ensures none { (text : List ℕ) (r : Refusal) → Accepts text → FirstRefusal text r → ⊥ }
{
    laws_below();
}

/// A law: every text is accepted or has a first refusal.
pub fn accepted_or_refused()
    ensures { (text : List ℕ) → Accepts text ⊎ ((r : Refusal) × FirstRefusal text r) }
{
    laws_below();
    existence_below();
}

/// A law: the image of each accepted program does what the program says (`IsFaithful`). From the program's buffer on,
/// whatever the input and the schedule, every run of it is bounded, is never stuck before its end, ends clean, and
/// emits what the program means.
pub fn accepted_programs_are_faithful()
    ensures { (text : List ℕ) (source : Source) (labels : List ℕ)
        → Accepts text → IsSource text source → AreLabels (program_of source) labels
        → IsFaithful (program_of source) labels (image_of (program_of source) labels) }
{
    laws_below();
    existence_below();
    nothing_left_is_an_order();
    images_are_faithful();
}

/// A law: the program of a text without a refusal has all that its meaning is asked with. Its arms communicate alike,
/// the steps of its cells are within the limit, and all writes and reads have an order for its buffer.
pub fn accepted_programs_are_alike()
    ensures alike { (text : List ℕ) (source : Source) → Accepts text → IsSource text source
        → Alike (program_of source) }
    ensures cost { (text : List ℕ) (source : Source) → Accepts text → IsSource text source
        → cells_cost (program_of source) ≤ STEPS }
    ensures order { (text : List ℕ) (source : Source) → Accepts text → IsSource text source
        → (order : List Comm) × IsBufferedOrder (sequences_of (program_of source)).lists
        (sequences_of (program_of source)).ends (program_of source).buffer order }
{
    laws_below();
    existence_below();
    nothing_left_is_an_order();
}

/// A law: a text has at most one image, and its images are of one program; and what is built of a text has its image
/// and that program.
pub fn one_image()
    ensures one { (text : List ℕ) (a b : Image) → IsImageOf text a → IsImageOf text b → a ≡ b }
    ensures program { (text : List ℕ) (a b : Image) (x : IsImageOf text a) (y : IsImageOf text b)
        → program_of x.source ≡ program_of y.source }
    ensures built { (text : List ℕ) (b : Built) → IsBuilt text b
        → (is : IsImageOf text b.image) × (plain b.program ≡ program_of is.source) }
{
    laws_below();
}

/// A law: every text that is accepted has an image.
pub fn some_image()
    ensures { (text : List ℕ) → Accepts text → (image : Image) × IsImageOf text image }
{
    laws_below();
    existence_below();
}

/// A law: the image of a text has the shape of one and can be written, and it does what the program of the text says.
pub fn images_do_as_they_say()
    ensures shaped { (text : List ℕ) (image : Image) → IsImageOf text image → IsShaped image }
    ensures listed { (text : List ℕ) (image : Image) → IsImageOf text image → IsListed image }
    ensures faithful { (text : List ℕ) (image : Image) (is : IsImageOf text image)
        → IsFaithful (program_of is.source) is.labels image }
{
    laws_below();
    existence_below();
    accepted_programs_are_faithful();
    images_are_listed();
    images_are_shaped();
}

/// The laws of the layers below by which there is at most one of each thing.
pub(crate) fn laws_below()
    ensures { Laws }
{
    one_outcome();
    one_program();
    one_first_wrong();
    alike_where_none_differ();
    one_greedy_order();
    one_walk();
    one_proposal();
    groups_by_link();
}

/// The laws of the layers below by which the code of a cell is short.
pub(crate) fn code_laws_below()
    ensures { CodeLaws }
{
    few_nodes();
    few_instructions();
    code_is_sized();
}

/// The laws of the layers below by which there is one of each thing.
pub(crate) fn existence_below()
    ensures { Existence }
{
    cell_lexer::some_outcome();
    some_limit();
    cell_parser::some_program();
    read_is_printable();
    cell_types::some_program();
    sound_programs_have_sequences();
    crossing_off::some_outcome();
    orders_leave_nothing();
    some_proposal();
    consistent_or_fall();
}
