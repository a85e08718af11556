//! The images that the tests run.
ghost use Rattle.std.specs.Prelude.{◌≡◌, [], ◌∷◌, ◌++◌, IfOk, IfSome, OnOk, replicate};
ghost use Rattle.sim_tests.specs.Arrays.{alone, chain, chain_receiver, chain_sender, idle, message, one_queue, shared, shared_receiver, shared_sender};

use cell_code::{CellImage, Group, Image, Instr, LinkImage, MessageImage};
use std::alloc::{AllocError, Global};
use sys_base::{Grid, Inputs, Items, Op};

/// Two messages that share a queue.
pub fn shared(alloc: Global) -> Result<Option<Image>, AllocError>
    ensures { IfOk result (λ image. IfSome image (λ i. i ≡ shared)) }
{
    let mut messages = Items::new(alloc);
    add_message(&mut messages, 1, 2, 0, Items::from_slice(alloc, &[1])?)?;
    add_message(&mut messages, 1, 1, 1, Items::from_slice(alloc, &[1])?)?;
    let mut groups = Items::new(alloc);
    add_group(alloc, &mut groups, 0, 0)?;
    add_group(alloc, &mut groups, 1, 1)?;
    let mut links = Items::new(alloc);
    add_link(&mut links, 1, groups)?;
    let mut cells = Items::new(alloc);
    cells.push(shared_sender(alloc)?)?;
    cells.push(shared_receiver(alloc)?)?;
    let Some(grid) = Grid::new(1, 2) else {
        return Ok(None);
    };
    Ok(Some(Image {
        grid,
        buffer: 0,
        bound: 13,
        messages,
        links,
        cells,
    }))
}

/// A message that goes over two links.
pub fn chain(alloc: Global) -> Result<Option<Image>, AllocError>
    ensures { IfOk result (λ image. IfSome image (λ i. i ≡ chain)) }
{
    let mut messages = Items::new(alloc);
    add_message(&mut messages, 2, 3, 0, Items::from_slice(alloc, &[1, 5])?)?;
    let mut links = Items::new(alloc);
    let mut groups = Items::new(alloc);
    add_group(alloc, &mut groups, 0, 0)?;
    add_link(&mut links, 1, groups)?;
    let mut groups = Items::new(alloc);
    add_group(alloc, &mut groups, 0, 0)?;
    add_link(&mut links, 5, groups)?;
    let mut cells = Items::new(alloc);
    cells.push(chain_sender(alloc)?)?;
    cells.push(idle(alloc)?)?;
    cells.push(chain_receiver(alloc)?)?;
    let Some(grid) = Grid::new(1, 3) else {
        return Ok(None);
    };
    Ok(Some(Image {
        grid,
        buffer: 0,
        bound: 34,
        messages,
        links,
        cells,
    }))
}

/// No input, for so many cells.
pub fn no_inputs(alloc: Global, count: usize) -> Result<Inputs, AllocError>
    ensures { IfOk result (λ inputs. inputs.cells ≡ replicate count []) }
{
    let mut cells = Items::new(alloc);
    for _cell in 0..count {
        cells.push(Items::new(alloc))?;
    }
    Ok(Inputs { cells })
}

/// A message from the first cell.
fn add_message(
    messages: &mut Items<MessageImage>,
    to: u16,
    length: u32,
    label: u16,
    route: Items<u16>,
) -> Result<(), AllocError>
    ensures { OnOk result (messages.new ≡ messages.old ++ message to length label route ∷ []) }
{
    messages.push(MessageImage {
        from: 0,
        to,
        length,
        label,
        route,
    })
}

/// A group of one message.
fn add_group(
    alloc: Global,
    groups: &mut Items<Group>,
    label: u16,
    member: u16,
) -> Result<(), AllocError>
    ensures { OnOk result (groups.new ≡ groups.old ++ alone label member ∷ []) }
{
    groups.push(Group {
        label,
        members: Items::from_slice(alloc, &[member])?,
    })
}

/// A link with one queue.
fn add_link(links: &mut Items<LinkImage>, link: u16, groups: Items<Group>) -> Result<(), AllocError>
    ensures { OnOk result (links.new ≡ links.old ++ one_queue link groups ∷ []) }
{
    links.push(LinkImage {
        link,
        queues: 1,
        groups,
    })
}

fn shared_sender(alloc: Global) -> Result<CellImage, AllocError>
    ensures { IfOk result (λ cell. cell ≡ shared_sender) }
{
    let code = [
        Instr::Push(1),
        Instr::Write(0),
        Instr::Push(2),
        Instr::Write(0),
        Instr::Push(3),
        Instr::Write(1),
        Instr::Halt,
    ];
    Ok(CellImage {
        takes: 0,
        emits: 0,
        words: 0,
        counters: 0,
        stack: 1,
        code: Items::from_slice(alloc, &code)?,
    })
}

fn shared_receiver(alloc: Global) -> Result<CellImage, AllocError>
    ensures { IfOk result (λ cell. cell ≡ shared_receiver) }
{
    let code = [
        Instr::Read {
            message: 0,
            word: 0,
        },
        Instr::Read {
            message: 0,
            word: 0,
        },
        Instr::Read {
            message: 1,
            word: 0,
        },
        Instr::Load(0),
        Instr::Emit,
        Instr::Halt,
    ];
    Ok(CellImage {
        takes: 0,
        emits: 1,
        words: 1,
        counters: 0,
        stack: 1,
        code: Items::from_slice(alloc, &code)?,
    })
}

fn chain_sender(alloc: Global) -> Result<CellImage, AllocError>
    ensures { IfOk result (λ cell. cell ≡ chain_sender) }
{
    let code = [
        Instr::Loop {
            counter: 0,
            turns: 3,
            exit: 6,
        },
        Instr::Counter(0),
        Instr::Push(1),
        Instr::Bin {
            op: Op::Add,
            line: 1,
        },
        Instr::Write(0),
        Instr::Next {
            counter: 0,
            turns: 3,
            body: 1,
        },
        Instr::Halt,
    ];
    Ok(CellImage {
        takes: 0,
        emits: 0,
        words: 0,
        counters: 1,
        stack: 2,
        code: Items::from_slice(alloc, &code)?,
    })
}

fn idle(alloc: Global) -> Result<CellImage, AllocError>
    ensures { IfOk result (λ cell. cell ≡ idle) }
{
    Ok(CellImage {
        takes: 0,
        emits: 0,
        words: 0,
        counters: 0,
        stack: 0,
        code: Items::from_slice(alloc, &[Instr::Halt])?,
    })
}

fn chain_receiver(alloc: Global) -> Result<CellImage, AllocError>
    ensures { IfOk result (λ cell. cell ≡ chain_receiver) }
{
    let code = [
        Instr::Loop {
            counter: 0,
            turns: 3,
            exit: 5,
        },
        Instr::Read {
            message: 0,
            word: 0,
        },
        Instr::Load(0),
        Instr::Emit,
        Instr::Next {
            counter: 0,
            turns: 3,
            body: 1,
        },
        Instr::Halt,
    ];
    Ok(CellImage {
        takes: 0,
        emits: 3,
        words: 1,
        counters: 1,
        stack: 1,
        code: Items::from_slice(alloc, &code)?,
    })
}
