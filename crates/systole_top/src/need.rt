ghost use Rattle.std.specs.Prelude.{◌≡◌, ◌++◌, IfOk, OnOk, codes, string_bytes};
ghost use Rattle.accept.specs.Needs.{need_lines, need_text};
ghost use Rattle.systole_top.specs.Commands.{need_reply, tree_of};
ghost use Rattle.systole_top.specs.bodies.Runs.{Steps, Shows};
ghost use Rattle.systole_top.specs.Shape.{Need};
ghost use Rattle.systole_top.specs.bodies.Stops.{ended, lines_of, reply_of};
ghost use Rattle.systole_top.specs.Tree.{Gives};

use crate::answer::{Answer, Side, Stop, Verdict};
use crate::check::refused_reply;
use crate::judgement::{Judgement, needed};
use accept::NeedLine;
use std::alloc::Global;
use std::fmt::Write;
use sys_base::Memory;
use sys_outside::Shelf;

/// `need F`: how many queues each link with a group needs, and how many it has.
#[tactic(auto, using(crate::proofs::Trees::step_stop))]
pub fn need<S: Shelf>(alloc: Global, shelf: &mut S, file: &str) -> Result<Answer, Stop>
    ensures { Steps (S.held shelf.old) (S.held shelf.new) (S.faults shelf.old) (S.faults shelf.new)
        (tree_of (Need file.now)) (ended reply_of result) }
{
    let judgement = needed(alloc, shelf, file)?;
    need_reply(alloc, judgement)
}

fn need_reply(alloc: Global, judgement: Judgement<Vec<NeedLine>>) -> Result<Answer, Stop>
    ensures { Shows (Gives (need_reply (lines_of judgement))) (ended reply_of result) }
{
    match judgement {
        Judgement::Accepted(lines) => Ok(Answer {
            verdict: Verdict::Done,
            side: Side::Out,
            text: need_lines(alloc, &lines)?,
        }),
        Judgement::Refused(refusal) => refused_reply(alloc, refusal),
    }
}

/// The lines, a newline after each.
fn need_lines(alloc: Global, lines: &[NeedLine]) -> Result<Vec<u8>, Memory>
    ensures { IfOk result (λ text. text.items ≡ need_lines lines.now) }
{
    let mut text = String::new(alloc);
    for line in lines {
        write_line(&mut text, *line)?;
    }
    Ok(text.into_bytes())
}

/// Writes a line and a newline.
fn write_line(text: &mut String, line: NeedLine) -> Result<(), Memory>
    ensures { OnOk result (string_bytes text.new ≡ string_bytes text.old ++ (need_text line ++ codes "\n")) }
{
    writeln!(text, "{line}")?;
    Ok(())
}
