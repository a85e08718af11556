ghost use Rattle.std.specs.Prelude.{◌≡◌};
ghost use Rattle.systole_top.specs.Reply.{outcome_of, status_of};
ghost use Rattle.systole_top.specs.Sides.{PutsOn, Reaches, WantsLast, WantsLastOfBoth, stream};
ghost use Rattle.systole_top.specs.bodies.Stops.{reply_of, told_by};
ghost use Rattle.systole_top.specs.Texts.{usage_line, out_of_memory};

use crate::answer::{Answer, Side, Stop, Verdict};
use crate::status::Status;
use sys_outside::{Sink, SinkError};

/// Puts an answer, or why there is none.
#[tactic(auto, using(crate::proofs::Reaching::reaches_out, crate::proofs::Reaching::reaches_err, crate::proofs::Reaching::alone, crate::proofs::Reaching::never))]
pub fn say<O: Sink, E: Sink>(answer: Result<Answer, Stop>, out: &mut O, err: &mut E) -> Status
    ensures tells { Reaches (stream O.taken O.faults O.wants out.old out.new)
        (stream E.taken E.faults E.wants err.old err.new) (told_by answer) result }
    ensures out_wants { WantsLastOfBoth (stream O.taken O.faults O.wants out.old out.new)
        (stream E.taken E.faults E.wants err.old err.new) result }
    ensures err_wants { WantsLastOfBoth (stream E.taken E.faults E.wants err.old err.new)
        (stream O.taken O.faults O.wants out.old out.new) result }
{
    match answer {
        Ok(answer) => say_answer(&answer, out, err),
        Err(Stop::Unread(line)) => put(err, &line, Status::ReadFault),
        Err(Stop::Memory) => say_no_memory(err),
    }
}

#[tactic(auto, using(crate::proofs::Reaching::reaches_out, crate::proofs::Reaching::reaches_err, crate::proofs::Reaching::alone, crate::proofs::Reaching::never))]
fn say_answer<O: Sink, E: Sink>(answer: &Answer, out: &mut O, err: &mut E) -> Status
    ensures tells { Reaches (stream O.taken O.faults O.wants out.old out.new)
        (stream E.taken E.faults E.wants err.old err.new) (outcome_of (reply_of answer.now)) result }
    ensures out_wants { WantsLastOfBoth (stream O.taken O.faults O.wants out.old out.new)
        (stream E.taken E.faults E.wants err.old err.new) result }
    ensures err_wants { WantsLastOfBoth (stream E.taken E.faults E.wants err.old err.new)
        (stream O.taken O.faults O.wants out.old out.new) result }
{
    let status = status_of(answer.verdict);
    match answer.side {
        Side::Out => put(out, &answer.text, status),
        Side::Err => put(err, &answer.text, status),
    }
}

fn status_of(verdict: Verdict) -> Status
    ensures { result ≡ status_of verdict }
{
    match verdict {
        Verdict::Done => Status::Done,
        Verdict::Refused => Status::Refused,
        Verdict::BadInput => Status::BadInput,
        Verdict::Unfinished => Status::Unfinished,
        Verdict::BadSchedule => Status::BadSchedule,
    }
}

/// Says that the words are no command.
#[tactic(auto, unfolding(crate::specs::Texts::usage_line))]
pub fn say_usage<E: Sink>(err: &mut E) -> Status
    ensures tells { PutsOn (stream E.taken E.faults E.wants err.old err.new) usage_line Status.Usage result }
    ensures wants { WantsLast (stream E.taken E.faults E.wants err.old err.new) result }
{
    put(err, b"usage: systole COMMAND WORDS\n", Status::Usage)
}

#[tactic(auto, unfolding(crate::specs::Texts::out_of_memory))]
fn say_no_memory<E: Sink>(err: &mut E) -> Status
    ensures tells { PutsOn (stream E.taken E.faults E.wants err.old err.new) out_of_memory Status.Memory result }
    ensures wants { WantsLast (stream E.taken E.faults E.wants err.old err.new) result }
{
    put(err, b"out of memory\n", Status::Memory)
}

// Puts a text in one piece. Nothing is put after it, whatever comes of it.
fn put<S: Sink>(sink: &mut S, text: &[u8], status: Status) -> Status
    ensures tells { PutsOn (stream S.taken S.faults S.wants sink.old sink.new) text.now status result }
    ensures wants { WantsLast (stream S.taken S.faults S.wants sink.old sink.new) result }
{
    match sink.put(text) {
        Ok(()) => status,
        Err(SinkError::Failed) => Status::WriteFault,
        Err(SinkError::Memory) => Status::Memory,
    }
}
