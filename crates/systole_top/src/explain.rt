ghost use Rattle.systole_top.specs.Commands.{explain_reply, tree_of};
ghost use Rattle.systole_top.specs.bodies.Runs.{Steps, Shows};
ghost use Rattle.systole_top.specs.Shape.{Explain};
ghost use Rattle.systole_top.specs.bodies.Stops.{ended, plan_of, reply_of};
ghost use Rattle.systole_top.specs.Tree.{Gives};

use crate::answer::{Answer, Side, Stop, Verdict};
use crate::check::accepted_reply;
use crate::judgement::{Judgement, judged};
use accept::Built;
use std::alloc::Global;
use sys_outside::Shelf;

/// `explain F`: whether the source is accepted, and the explanation of its first refusal where it isn't.
#[tactic(auto, using(crate::proofs::Trees::step_stop))]
pub fn explain<S: Shelf>(alloc: Global, shelf: &mut S, file: &str) -> Result<Answer, Stop>
    ensures { Steps (S.held shelf.old) (S.held shelf.new) (S.faults shelf.old) (S.faults shelf.new)
        (tree_of (Explain file.now)) (ended reply_of result) }
{
    let judgement = judged(alloc, shelf, file)?;
    explain_reply(alloc, judgement)
}

fn explain_reply(alloc: Global, judgement: Judgement<Built>) -> Result<Answer, Stop>
    ensures { Shows (Gives (explain_reply (plan_of judgement))) (ended reply_of result) }
{
    match judgement {
        Judgement::Accepted(_) => accepted_reply(alloc),
        Judgement::Refused(refusal) => Ok(Answer {
            verdict: Verdict::Refused,
            side: Side::Out,
            text: refusals::explain(alloc, &refusal)?,
        }),
    }
}
