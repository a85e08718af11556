ghost use Rattle.std.specs.Prelude.{◌≡◌, ◌<◌, ◌≤◌, ℕ, [], length, slice_get, All, IfOk, OnOk};
ghost use Rattle.std.specs.Vec.{vec_len};
ghost use Rattle.sys_base.specs.declared.limits.TheConstants.{STEPS};
ghost use Rattle.cell_types.specs.Alike.{Alike};
ghost use Rattle.cell_types.specs.Cost.{cells_cost};
ghost use Rattle.cell_types.specs.Typed.{plain};
ghost use Rattle.comm_sequence.specs.BufferedOrder.{IsBufferedOrder};
ghost use Rattle.comm_sequence.specs.Meaning.{IsMeaning};
ghost use Rattle.comm_sequence.specs.Sequences.{message_of, sequences_of};
ghost use Rattle.comm_sequence.specs.declared.comm.Comm.{Comm};
ghost use Rattle.rendezvous.specs.bodies.Running.{AlikeTasks, IsReady};
ghost use Rattle.rendezvous.specs.bodies.UnderWay.{AllEnd, AreEmpty, DoesNext, Ends, Exchanged, HasWord, IsOpening, IsOwner};
ghost use Rattle.rendezvous.specs.declared.runner.Runner.{Runner};

use crate::runner::Runner;
use crate::task::Event;
use cell_types::{Message, Program};
use comm_sequence::{Comm, sound_programs_have_sequences};
use std::alloc::Global;
use sys_base::{Inputs, Items, Memory, Outputs, Word};

/// The words that were written to a message, and how many of them were read.
#[derive(Debug, Drop)]
pub(crate) struct Stream {
    words: Vec<Word>,
    read: usize,
}

/// The meaning of a program for these inputs (`comm_sequence`, `specs/Meaning.antt`): the words that each cell emits
/// where all agree on the words of the messages. It is computed from the statements by the events of an order: a write
/// is done by its sender alone, and a read gets the next word of its message. A cell that takes more words than its
/// input has takes the number 0.
///
/// The cost of the program is within the limit, its arms communicate alike, and the order is one of its lists for its
/// buffer. The time is linear in the cost of the program and the length of the order.
pub fn meaning(
    alloc: Global,
    program: &Program,
    order: &[Comm],
    inputs: &Inputs,
) -> Result<Outputs, Memory>
    requires cost { cells_cost (plain program.now) ≤ STEPS }
    requires alike { Alike (plain program.now) }
    requires order { IsBufferedOrder (sequences_of (plain program.now)).lists (sequences_of (plain program.now)).ends
        (plain program.now).buffer order.now }
    ensures { IfOk result (λ outputs. IsMeaning (plain program.now) inputs.now.cells outputs.cells) }
{
    sound_programs_have_sequences();
    let messages = program.messages();
    let mut cells = opening_cells(alloc, program, inputs)?;
    let mut streams = opening_streams(alloc, messages.len())?;
    for event in order {
        let runner = &mut cells[usize::from(owner(messages, *event))];
        let stream = &mut streams[usize::from(event.message())];
        exchange(runner, stream)?;
    }
    outputs(alloc, cells)
}

/// All cells before their statements.
fn opening_cells<'a>(
    alloc: Global,
    program: &'a Program,
    inputs: &'a Inputs,
) -> Result<Vec<Runner<'a>>, Memory>
    ensures count { IfOk result (λ cells. vec_len cells ≡ length program.now.cells) }
    ensures opening { IfOk result (λ cells. (c : ℕ) (r : Runner) → slice_get cells.items c ≡ Some r
        → IsOpening program.now inputs.now.cells c r) }
{
    let mut cells = Vec::new(alloc);
    for (index, cell) in program.cells().iter().enumerate() {
        let input = match inputs.cells.get(index) {
            Some(input) => input.as_slice(),
            None => &[],
        };
        cells.push(Runner::new(alloc, index as u16, cell, input)?)?;
    }
    Ok(cells)
}

/// So many messages of which no word was written.
fn opening_streams(alloc: Global, count: usize) -> Result<Vec<Stream>, Memory>
    ensures count { IfOk result (λ streams. vec_len streams ≡ count) }
    ensures empty { IfOk result (λ streams. AreEmpty streams.items) }
{
    let mut streams = Vec::new(alloc);
    for _index in 0..count {
        streams.push(Stream {
            words: Vec::new(alloc),
            read: 0,
        })?;
    }
    Ok(streams)
}

/// The cell of an event: the sender of the message for a write, its receiver for a read.
fn owner(messages: &[Message], event: Comm) -> u16
    requires { message_of event < length messages.now }
    ensures { IsOwner messages.now event result }
{
    match event {
        Comm::Write(message) => messages[usize::from(message)].from,
        Comm::Read(message) => messages[usize::from(message)].to,
    }
}

/// Lets a cell do its next event, on the message of that event.
fn exchange(runner: &mut Runner<'_>, stream: &mut Stream) -> Result<(), Memory>
    requires ready { IsReady runner.old }
    requires alike { AlikeTasks runner.old.tasks.items }
    requires word { (event : Comm) → DoesNext runner.old event → HasWord stream.old event }
    ensures { OnOk result ((event : Comm) → DoesNext runner.old event
        → Exchanged event runner.old runner.new stream.old stream.new) }
{
    match runner.next()? {
        Some(Event::Writes { word, .. }) => stream.words.push(word)?,
        Some(Event::Reads { variable, .. }) => {
            let word = stream.words[stream.read];
            stream.read += 1;
            runner.store.set(variable, word);
        }
        None => {}
    }
    Ok(())
}

/// The words that the cells have emitted at the end of their statements.
fn outputs(alloc: Global, cells: Vec<Runner<'_>>) -> Result<Outputs, Memory>
    requires { All IsReady cells.items }
    ensures { IfOk result (λ outputs. AllEnd cells.entry.items outputs.cells) }
{
    let mut words = Items::new(alloc);
    for runner in cells {
        words.push(Items::from_vec(finish(runner)?))?;
    }
    Ok(Outputs { cells: words })
}

/// Runs a cell to its end, where no write or read is left: the words that it has emitted.
fn finish(runner: Runner<'_>) -> Result<Vec<Word>, Memory>
    requires { IsReady runner }
    ensures { IfOk result (λ words. Ends runner.entry words.items) }
{
    let mut runner = runner;
    runner.next()?;
    Ok(runner.into_output())
}
