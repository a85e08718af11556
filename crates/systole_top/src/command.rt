ghost use Rattle.systole_top.specs.Commands.{tree_of};
ghost use Rattle.systole_top.specs.bodies.Runs.{Steps};
ghost use Rattle.systole_top.specs.Shape.{seen};
ghost use Rattle.systole_top.specs.bodies.Inputs.{CanBeAsked};
ghost use Rattle.systole_top.specs.bodies.Stops.{ended, reply_of};

use crate::answer::{Answer, Stop};
use crate::check::check;
use crate::compile::compile;
use crate::explain::explain;
use crate::mean::mean;
use crate::need::need;
use crate::run::run;
use crate::words::Command;
use std::alloc::Global;
use sys_outside::Shelf;

/// The answer to a command.
pub fn answer_command<S: Shelf>(
    alloc: Global,
    shelf: &mut S,
    command: Command<'_>,
) -> Result<Answer, Stop>
    requires { CanBeAsked command }
    ensures { Steps (S.held shelf.old) (S.held shelf.new) (S.faults shelf.old) (S.faults shelf.new)
        (tree_of (seen command.entry)) (ended reply_of result) }
{
    match command {
        Command::Check(file) => check(alloc, shelf, file),
        Command::Explain(file) => explain(alloc, shelf, file),
        Command::Compile(file) => compile(alloc, shelf, file),
        Command::Need(file) => need(alloc, shelf, file),
        Command::Mean(file, input) => mean(alloc, shelf, file, input),
        Command::Run(words) => run(alloc, shelf, &words),
    }
}
