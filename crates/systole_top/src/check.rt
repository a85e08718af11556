ghost use Rattle.std.specs.Prelude.{◌≡◌, [], IfOk};
ghost use Rattle.systole_top.specs.Commands.{check_reply, done_reply, refused_reply, tree_of};
ghost use Rattle.systole_top.specs.bodies.Runs.{Steps, Shows};
ghost use Rattle.systole_top.specs.Shape.{Check};
ghost use Rattle.systole_top.specs.bodies.Stops.{ended, plan_of, reply_of};
ghost use Rattle.systole_top.specs.Texts.{accepted_line, refusal_line};
ghost use Rattle.systole_top.specs.Tree.{Gives};

use crate::answer::{Answer, Side, Stop, Verdict};
use crate::judgement::{Judgement, judged};
use accept::Built;
use refusals::Refusal;
use std::alloc::{AllocError, Global};
use sys_outside::Shelf;

/// `check F`: whether the source is accepted.
#[tactic(auto, using(crate::proofs::Trees::step_stop))]
pub fn check<S: Shelf>(alloc: Global, shelf: &mut S, file: &str) -> Result<Answer, Stop>
    ensures { Steps (S.held shelf.old) (S.held shelf.new) (S.faults shelf.old) (S.faults shelf.new)
        (tree_of (Check file.now)) (ended reply_of result) }
{
    let judgement = judged(alloc, shelf, file)?;
    check_reply(alloc, judgement)
}

fn check_reply(alloc: Global, judgement: Judgement<Built>) -> Result<Answer, Stop>
    ensures { Shows (Gives (check_reply (plan_of judgement))) (ended reply_of result) }
{
    match judgement {
        Judgement::Accepted(_) => accepted_reply(alloc),
        Judgement::Refused(refusal) => refused_reply(alloc, refusal),
    }
}

/// Says that the source is accepted.
pub fn accepted_reply(alloc: Global) -> Result<Answer, Stop>
    ensures { Shows (Gives (done_reply accepted_line)) (ended reply_of result) }
{
    Ok(Answer {
        verdict: Verdict::Done,
        side: Side::Out,
        text: accepted_line(alloc)?,
    })
}

/// Says why the source is refused.
pub fn refused_reply(alloc: Global, refusal: Refusal) -> Result<Answer, Stop>
    ensures { Shows (Gives (refused_reply [] (refusal_line refusal))) (ended reply_of result) }
{
    Ok(Answer {
        verdict: Verdict::Refused,
        side: Side::Err,
        text: refusal_line(alloc, &refusal)?,
    })
}

#[tactic(auto, unfolding(crate::specs::Texts::refusal_line))]
fn refusal_line(alloc: Global, refusal: &Refusal) -> Result<Vec<u8>, AllocError>
    ensures { IfOk result (λ line. line.items ≡ refusal_line refusal.now) }
{
    Ok(format!(in alloc; "{refusal}\n")?.into_bytes())
}

#[tactic(auto, unfolding(crate::specs::Texts::accepted_line))]
fn accepted_line(alloc: Global) -> Result<Vec<u8>, AllocError>
    ensures { IfOk result (λ line. line.items ≡ accepted_line) }
{
    Vec::from_slice(alloc, b"accepted\n")
}
