//! The images whose queues the tests use.
ghost use Rattle.std.specs.Prelude.{◌≡◌, [], ◌∷◌, ◌++◌, replicate, IfOk, IfSome, OnOk};
ghost use Rattle.queue_tests.specs.Arrays.{chain, group, idle, link_with, message, paired, shared, wide};

use cell_code::{CellImage, Group, Image, Instr, LinkImage, MessageImage};
use std::alloc::{AllocError, Global};
use sys_base::{Grid, Items};

/// Two messages that share a queue.
pub fn shared(alloc: Global) -> Result<Option<Image>, AllocError>
    ensures { IfOk result (λ image. IfSome image (λ i. i ≡ shared)) }
{
    let mut messages = Items::new(alloc);
    add_message(&mut messages, 0, 1, 2, 0, Items::from_slice(alloc, &[1])?)?;
    add_message(&mut messages, 0, 1, 1, 1, Items::from_slice(alloc, &[1])?)?;
    let mut groups = Items::new(alloc);
    add_group(&mut groups, 0, Items::from_slice(alloc, &[0])?)?;
    add_group(&mut groups, 1, Items::from_slice(alloc, &[1])?)?;
    let mut links = Items::new(alloc);
    add_link(&mut links, 1, 1, groups)?;
    let mut cells = Items::new(alloc);
    cells.push(idle(alloc)?)?;
    cells.push(idle(alloc)?)?;
    let Some(grid) = Grid::new(1, 2) else {
        return Ok(None);
    };
    Ok(Some(Image {
        grid,
        buffer: 0,
        bound: 0,
        messages,
        links,
        cells,
    }))
}

/// A message that goes over two links, and another one over the first of them.
pub fn chain(alloc: Global) -> Result<Option<Image>, AllocError>
    ensures { IfOk result (λ image. IfSome image (λ i. i ≡ chain)) }
{
    let mut messages = Items::new(alloc);
    add_message(
        &mut messages,
        0,
        2,
        2,
        0,
        Items::from_slice(alloc, &[1, 5])?,
    )?;
    add_message(&mut messages, 0, 1, 1, 0, Items::from_slice(alloc, &[1])?)?;
    let mut links = Items::new(alloc);
    let mut groups = Items::new(alloc);
    add_group(&mut groups, 0, Items::from_slice(alloc, &[0, 1])?)?;
    add_link(&mut links, 1, 2, groups)?;
    let mut groups = Items::new(alloc);
    add_group(&mut groups, 0, Items::from_slice(alloc, &[0])?)?;
    add_link(&mut links, 5, 1, groups)?;
    let mut cells = Items::new(alloc);
    cells.push(idle(alloc)?)?;
    cells.push(idle(alloc)?)?;
    cells.push(idle(alloc)?)?;
    let Some(grid) = Grid::new(1, 3) else {
        return Ok(None);
    };
    Ok(Some(Image {
        grid,
        buffer: 0,
        bound: 0,
        messages,
        links,
        cells,
    }))
}

/// Two messages of one group on each of two links.
pub fn paired(alloc: Global) -> Result<Option<Image>, AllocError>
    ensures { IfOk result (λ image. IfSome image (λ i. i ≡ paired)) }
{
    let mut messages = Items::new(alloc);
    add_message(&mut messages, 0, 1, 4, 0, Items::from_slice(alloc, &[1])?)?;
    add_message(&mut messages, 0, 1, 4, 0, Items::from_slice(alloc, &[1])?)?;
    add_message(&mut messages, 1, 2, 4, 0, Items::from_slice(alloc, &[5])?)?;
    add_message(&mut messages, 1, 2, 4, 0, Items::from_slice(alloc, &[5])?)?;
    let mut links = Items::new(alloc);
    let mut groups = Items::new(alloc);
    add_group(&mut groups, 0, Items::from_slice(alloc, &[0, 1])?)?;
    add_link(&mut links, 1, 2, groups)?;
    let mut groups = Items::new(alloc);
    add_group(&mut groups, 0, Items::from_slice(alloc, &[2, 3])?)?;
    add_link(&mut links, 5, 2, groups)?;
    let mut cells = Items::new(alloc);
    cells.push(idle(alloc)?)?;
    cells.push(idle(alloc)?)?;
    cells.push(idle(alloc)?)?;
    let Some(grid) = Grid::new(1, 3) else {
        return Ok(None);
    };
    Ok(Some(Image {
        grid,
        buffer: 0,
        bound: 0,
        messages,
        links,
        cells,
    }))
}

/// 32 messages of one group, and one of the next group, that share 32 queues.
pub fn wide(alloc: Global) -> Result<Option<Image>, AllocError>
    ensures { IfOk result (λ image. IfSome image (λ i. i ≡ wide)) }
{
    let mut messages = Items::new(alloc);
    let mut members = Items::new(alloc);
    for message in 0..32 {
        add_message(&mut messages, 0, 1, 1, 0, Items::from_slice(alloc, &[1])?)?;
        members.push(message)?;
    }
    add_message(&mut messages, 0, 1, 1, 1, Items::from_slice(alloc, &[1])?)?;
    let mut groups = Items::new(alloc);
    add_group(&mut groups, 0, members)?;
    add_group(&mut groups, 1, Items::from_slice(alloc, &[32])?)?;
    let mut links = Items::new(alloc);
    add_link(&mut links, 1, 32, groups)?;
    let mut cells = Items::new(alloc);
    cells.push(idle(alloc)?)?;
    cells.push(idle(alloc)?)?;
    let Some(grid) = Grid::new(1, 2) else {
        return Ok(None);
    };
    Ok(Some(Image {
        grid,
        buffer: 0,
        bound: 0,
        messages,
        links,
        cells,
    }))
}

/// A message.
fn add_message(
    messages: &mut Items<MessageImage>,
    from: u16,
    to: u16,
    length: u32,
    label: u16,
    route: Items<u16>,
) -> Result<(), AllocError>
    ensures { OnOk result (messages.new ≡ messages.old ++ message from to length label route ∷ []) }
{
    messages.push(MessageImage {
        from,
        to,
        length,
        label,
        route,
    })
}

/// A group of messages.
fn add_group(groups: &mut Items<Group>, label: u16, members: Items<u16>) -> Result<(), AllocError>
    ensures { OnOk result (groups.new ≡ groups.old ++ group label members ∷ []) }
{
    groups.push(Group { label, members })
}

/// A link.
fn add_link(
    links: &mut Items<LinkImage>,
    link: u16,
    queues: u8,
    groups: Items<Group>,
) -> Result<(), AllocError>
    ensures { OnOk result (links.new ≡ links.old ++ link_with link queues groups ∷ []) }
{
    links.push(LinkImage {
        link,
        queues,
        groups,
    })
}

/// A cell that does nothing.
fn idle(alloc: Global) -> Result<CellImage, AllocError>
    ensures { IfOk result (λ cell. cell ≡ idle) }
{
    Ok(CellImage {
        takes: 0,
        emits: 0,
        words: 0,
        counters: 0,
        stack: 0,
        code: Items::from_slice(alloc, &[Instr::Halt])?,
    })
}
