ghost use Rattle.systole_top.specs.Commands.{compile_reply, tree_of};
ghost use Rattle.systole_top.specs.bodies.Ready.{WhereReady};
ghost use Rattle.systole_top.specs.bodies.Runs.{Steps, Shows};
ghost use Rattle.systole_top.specs.Shape.{Compile};
ghost use Rattle.systole_top.specs.bodies.Stops.{ended, plan_of, reply_of};
ghost use Rattle.systole_top.specs.Tree.{Gives};

use crate::answer::{Answer, Side, Stop, Verdict};
use crate::check::refused_reply;
use crate::judgement::{Judgement, judged};
use accept::Built;
use object_io::write_object;
use std::alloc::Global;
use sys_outside::Shelf;

/// `compile F`: the object of the source's image.
#[tactic(auto, using(crate::proofs::Trees::step_stop))]
pub fn compile<S: Shelf>(alloc: Global, shelf: &mut S, file: &str) -> Result<Answer, Stop>
    ensures { Steps (S.held shelf.old) (S.held shelf.new) (S.faults shelf.old) (S.faults shelf.new)
        (tree_of (Compile file.now)) (ended reply_of result) }
{
    let judgement = judged(alloc, shelf, file)?;
    compile_reply(alloc, judgement)
}

fn compile_reply(alloc: Global, judgement: Judgement<Built>) -> Result<Answer, Stop>
    requires ready { WhereReady judgement }
    ensures { Shows (Gives (compile_reply (plan_of judgement))) (ended reply_of result) }
{
    match judgement {
        Judgement::Accepted(built) => Ok(Answer {
            verdict: Verdict::Done,
            side: Side::Out,
            text: write_object(alloc, &built.image)?,
        }),
        Judgement::Refused(refusal) => refused_reply(alloc, refusal),
    }
}
