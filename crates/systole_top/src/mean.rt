ghost use Rattle.std.specs.Prelude.{◌≡◌, List, IfOk};
ghost use Rattle.array_model.specs.States.{IsCounted};
ghost use Rattle.cell_types.specs.Typed.{plain};
ghost use Rattle.comm_sequence.specs.Meaning.{IsMeaning};
ghost use Rattle.program_image.specs.Faithful.{inputs_of};
ghost use Rattle.sys_base.specs.declared.word.Word.{Word};
ghost use Rattle.systole_top.specs.Commands.{meaning_line, means, on_inputs, tree_of, with_input};
ghost use Rattle.systole_top.specs.Given.{emits_of};
ghost use Rattle.systole_top.specs.Only.{IsOnly};
ghost use Rattle.systole_top.specs.Shape.{Mean};
ghost use Rattle.systole_top.specs.bodies.Inputs.{IsCountedIn};
ghost use Rattle.systole_top.specs.bodies.Ready.{IsReady, WhereReady};
ghost use Rattle.systole_top.specs.bodies.Runs.{Steps, Shows};
ghost use Rattle.systole_top.specs.declared.judgement.Judgement.TheVariants.{Accepted};
ghost use Rattle.systole_top.specs.bodies.Stops.{ended, given_by, made_of, plan_of, reply_of};

use crate::answer::{Answer, Side, Stop, Verdict};
use crate::check::refused_reply;
use crate::given::{Given, given_in};
use crate::judgement::{Judgement, judged};
use accept::Built;
use cell_code::Image;
use rendezvous::meaning;
use std::alloc::{AllocError, Global};
use stream_io::meaning_text;
use sys_base::{Inputs, Memory};
use sys_outside::Shelf;

/// `mean F IN`: the words that each cell emits, by the meaning of the source for the input.
#[tactic(auto, using(crate::proofs::Trees::step_stop))]
pub fn mean<S: Shelf>(alloc: Global, shelf: &mut S, file: &str, input: &str) -> Result<Answer, Stop>
    ensures { Steps (S.held shelf.old) (S.held shelf.new) (S.faults shelf.old) (S.faults shelf.new)
        (tree_of (Mean file.now input.now)) (ended reply_of result) }
{
    let judgement = judged(alloc, shelf, file)?;
    meant(alloc, shelf, judgement, input)
}

/// Goes on where the source is judged.
fn meant<S: Shelf>(
    alloc: Global,
    shelf: &mut S,
    judgement: Judgement<Built>,
    input: &str,
) -> Result<Answer, Stop>
    requires { WhereReady judgement }
    ensures { Steps (S.held shelf.old) (S.held shelf.new) (S.faults shelf.old) (S.faults shelf.new)
        (with_input input.now means (plan_of judgement)) (ended reply_of result) }
{
    match judgement {
        Judgement::Accepted(built) => meant_by(alloc, shelf, built, input),
        Judgement::Refused(refusal) => refused_reply(alloc, refusal),
    }
}

/// Goes on where the source is accepted.
#[tactic(auto, using(crate::proofs::Trees::step_stop))]
fn meant_by<S: Shelf>(
    alloc: Global,
    shelf: &mut S,
    built: Built,
    input: &str,
) -> Result<Answer, Stop>
    requires { IsReady built }
    ensures { Steps (S.held shelf.old) (S.held shelf.new) (S.faults shelf.old) (S.faults shelf.new)
        (with_input input.now means (Accepted (made_of built))) (ended reply_of result) }
{
    let given = given_in(alloc, shelf, &built.image, input)?;
    mean_reply(alloc, &built, given)
}

fn mean_reply(alloc: Global, built: &Built, given: Given) -> Result<Answer, Stop>
    requires ready { IsReady built.now }
    requires counted { IsCountedIn built.now.image given }
    ensures { Shows (on_inputs (means (made_of built.now)) (given_by given)) (ended reply_of result) }
{
    match given {
        Given::Taken(inputs) => Ok(Answer {
            verdict: Verdict::Done,
            side: Side::Out,
            text: words_of(alloc, built, &inputs)?,
        }),
        Given::Bad(line) => Ok(Answer {
            verdict: Verdict::BadInput,
            side: Side::Err,
            text: line,
        }),
    }
}

/// The line of the program's meaning for these inputs.
fn words_of(alloc: Global, built: &Built, inputs: &Inputs) -> Result<Vec<u8>, Memory>
    requires ready { IsReady built.now }
    requires counted { IsCounted built.now.image (inputs_of inputs.now.cells) }
    ensures { IfOk result (λ line. (words : List (List Word))
        × IsOnly (IsMeaning (plain built.now.program) inputs.now.cells) words
        × (line.items ≡ meaning_line built.now.image words)) }
{
    let outputs = meaning(alloc, &built.program, built.order.as_slice(), inputs)?;
    let emits = emits_of(alloc, &built.image)?;
    let line = meaning_text(alloc, &built.image.grid, &outputs, &emits)?;
    Ok(line)
}

/// How many words each cell emits.
fn emits_of(alloc: Global, image: &Image) -> Result<Vec<u32>, AllocError>
    ensures { IfOk result (λ emits. emits.items ≡ emits_of image.now) }
{
    image
        .cells
        .as_slice()
        .iter()
        .map(|cell| cell.emits)
        .collect(alloc)
}
