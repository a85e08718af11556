ghost use Rattle.std.specs.Prelude.{map, string_bytes};
ghost use Rattle.systole_top.specs.Causes.{Tells};
ghost use Rattle.systole_top.specs.Promises.{Promises, call};
ghost use Rattle.systole_top.specs.Shape.{shape};
ghost use Rattle.systole_top.specs.Sides.{WantsLastOfBoth, stream};

use crate::command::answer_command;
use crate::say::{say, say_usage};
use crate::status::Status;
use crate::words::read_words;
use accept::{accepted_or_refused, images_do_as_they_say, some_answer_of_needs, some_image};
use run_words::{runs_have_one_answer, schedules_make_runs};
use std::alloc::Global;
use stream_io::one_input;
use sys_outside::{Shelf, Sink};

/// Answers the words of a command line: reads the files that they name from the shelf, and puts what there is to say on
/// standard output or on standard error, in one piece.
///
/// What it promises of the whole call stands in `specs/Promises.antt`.
pub fn systole<S: Shelf, O: Sink, E: Sink>(
    alloc: Global,
    words: &[String],
    shelf: &mut S,
    out: &mut O,
    err: &mut E,
) -> Status
    ensures { Promises (call (shape (map string_bytes words.now))
        (S.held shelf.old) (S.faults shelf.old) (S.faults shelf.new)
        (stream O.taken O.faults O.wants out.old out.new)
        (stream E.taken E.faults E.wants err.old err.new) result) }
{
    accepted_or_refused();
    some_image();
    images_do_as_they_say();
    some_answer_of_needs();
    one_input();
    runs_have_one_answer();
    schedules_make_runs();
    tell(alloc, words, shelf, out, err)
}

#[tactic(auto, using(crate::proofs::Reaching::alone, crate::proofs::Reaching::never))]
fn tell<S: Shelf, O: Sink, E: Sink>(
    alloc: Global,
    words: &[String],
    shelf: &mut S,
    out: &mut O,
    err: &mut E,
) -> Status
    ensures tells { Tells (shape (map string_bytes words.now))
        (S.held shelf.old) (S.faults shelf.old) (S.faults shelf.new)
        (stream O.taken O.faults O.wants out.old out.new)
        (stream E.taken E.faults E.wants err.old err.new) result }
    ensures out_wants { WantsLastOfBoth (stream O.taken O.faults O.wants out.old out.new)
        (stream E.taken E.faults E.wants err.old err.new) result }
    ensures err_wants { WantsLastOfBoth (stream E.taken E.faults E.wants err.old err.new)
        (stream O.taken O.faults O.wants out.old out.new) result }
{
    match read_words(words) {
        None => say_usage(err),
        Some(command) => {
            let answer = answer_command(alloc, shelf, command);
            say(answer, out, err)
        }
    }
}
