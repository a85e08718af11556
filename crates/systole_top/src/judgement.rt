ghost use Rattle.std.specs.Prelude.{◌≡◌, List, Some, IfOk};
ghost use Rattle.std.specs.Option.{option_map};
ghost use Rattle.systole_top.specs.Commands.{judgement_of, judged};
ghost use Rattle.systole_top.specs.Judgement.{IsJudged, acceptance, needs};
ghost use Rattle.systole_top.specs.Only.{IsOnly};
ghost use Rattle.systole_top.specs.bodies.Ready.{WhereReady};
ghost use Rattle.systole_top.specs.bodies.Runs.{Steps, Shows};
ghost use Rattle.systole_top.specs.bodies.Stops.{bytes_of, ended, lines_of, plan_of};

use crate::answer::Stop;
use crate::read::read_file;
use accept::{
    AcceptError, Built, NeedLine, accepted_programs_are_alike, build, images_do_as_they_say,
    one_answer_of_needs, one_first_refusal, one_image,
};
use refusals::Refusal;
use std::alloc::Global;
use sys_base::{Memory, SOURCE_BYTES};
use sys_outside::Shelf;

/// What a source is found to be.
#[derive(Debug, Drop)]
pub enum Judgement<T: Drop> {
    /// It passes, and this is found of it.
    Accepted(T),
    /// It is refused, for this reason first.
    Refused(Refusal),
}

/// Reads a source and judges whether it is accepted.
#[tactic(auto, using(crate::proofs::Trees::step_stop))]
pub fn judged<S: Shelf>(alloc: Global, shelf: &mut S, file: &str) -> Result<Judgement<Built>, Stop>
    ensures judged { Steps (S.held shelf.old) (S.held shelf.new) (S.faults shelf.old) (S.faults shelf.new)
        (judged acceptance file.now) (ended plan_of result) }
    ensures ready { IfOk result WhereReady }
{
    let text = read_file(alloc, shelf, file, SOURCE_BYTES)?;
    judgement_of(alloc, text)
}

fn judgement_of(alloc: Global, text: Option<Vec<u8>>) -> Result<Judgement<Built>, Stop>
    ensures shows { Shows (judgement_of acceptance (option_map bytes_of text)) (ended plan_of result) }
    ensures ready { IfOk result WhereReady }
{
    match text {
        None => Ok(Judgement::Refused(Refusal::LongSource)),
        Some(text) => Ok(judge(alloc, &text)?),
    }
}

/// Accepts a source without a refusal, and else says its first one.
fn judge(alloc: Global, text: &[u8]) -> Result<Judgement<Built>, Memory>
    ensures only { IfOk result (λ j. IsOnly (IsJudged acceptance (Some text.now)) (plan_of j)) }
    ensures ready { IfOk result WhereReady }
{
    one_first_refusal();
    one_image();
    images_do_as_they_say();
    accepted_programs_are_alike();
    match build(alloc, text) {
        Ok(built) => Ok(Judgement::Accepted(built)),
        Err(AcceptError::Refused(refusal)) => Ok(Judgement::Refused(refusal)),
        Err(AcceptError::Memory) => Err(Memory),
    }
}

/// Reads a source and says what its links need.
#[tactic(auto, using(crate::proofs::Trees::step_stop))]
pub fn needed<S: Shelf>(
    alloc: Global,
    shelf: &mut S,
    file: &str,
) -> Result<Judgement<Vec<NeedLine>>, Stop>
    ensures { Steps (S.held shelf.old) (S.held shelf.new) (S.faults shelf.old) (S.faults shelf.new)
        (judged needs file.now) (ended lines_of result) }
{
    let text = read_file(alloc, shelf, file, SOURCE_BYTES)?;
    needs_of(alloc, text)
}

fn needs_of(alloc: Global, text: Option<Vec<u8>>) -> Result<Judgement<Vec<NeedLine>>, Stop>
    ensures { Shows (judgement_of needs (option_map bytes_of text)) (ended lines_of result) }
{
    match text {
        None => Ok(Judgement::Refused(Refusal::LongSource)),
        Some(text) => Ok(judge_needs(alloc, &text)?),
    }
}

/// Says what the links of a source need, and else its first refusal but for queues and steps.
fn judge_needs(alloc: Global, text: &[u8]) -> Result<Judgement<Vec<NeedLine>>, Memory>
    ensures { IfOk result (λ j. IsOnly (IsJudged needs (Some text.now)) (lines_of j)) }
{
    one_answer_of_needs();
    match accept::needs(alloc, text) {
        Ok(lines) => Ok(Judgement::Accepted(lines)),
        Err(AcceptError::Refused(refusal)) => Ok(Judgement::Refused(refusal)),
        Err(AcceptError::Memory) => Err(Memory),
    }
}
