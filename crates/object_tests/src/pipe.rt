ghost use Rattle.std.specs.Prelude.{◌≡◌, [], ◌∷◌, IfOk, IfSome, pos};
ghost use Rattle.cell_code.specs.Images.{IsListed};
ghost use Rattle.cell_code.specs.declared.instruction.Instr.TheVariants.{Push, Load, Write, Read, Emit, Halt};

use cell_code::{
    CellImage, Group, Image, Instr, LinkImage, MessageImage, checked_cells_are_shaped,
};
use std::alloc::{AllocError, Global};
use sys_base::{Grid, Items};

/// The image of a pipe: the first cell writes 7 to the second one, which emits it.
pub fn pipe(alloc: Global) -> Result<Option<Image>, AllocError>
    ensures { IfOk result (λ image. IfSome image IsListed) }
{
    checked_cells_are_shaped();
    let messages = messages(alloc)?;
    let links = links(alloc)?;
    let cells = cells(alloc)?;
    let Some(grid) = Grid::new(1, 2) else {
        return Ok(None);
    };
    Ok(Some(Image {
        grid,
        buffer: 0,
        bound: 6,
        messages,
        links,
        cells,
    }))
}

fn messages(alloc: Global) -> Result<Items<MessageImage>, AllocError>
    ensures { IfOk result (λ messages. messages
        ≡ record { from = 0; to = 1; length = 1; label = 0; route = 1 ∷ [] } ∷ []) }
{
    let mut messages = Items::new(alloc);
    messages.push(MessageImage {
        from: 0,
        to: 1,
        length: 1,
        label: 0,
        route: Items::from_slice(alloc, &[1])?,
    })?;
    Ok(messages)
}

fn links(alloc: Global) -> Result<Items<LinkImage>, AllocError>
    ensures { IfOk result (λ links. links
        ≡ record { link = 1; queues = 1; groups = record { label = 0; members = 0 ∷ [] } ∷ [] } ∷ []) }
{
    let mut groups = Items::new(alloc);
    groups.push(Group {
        label: 0,
        members: Items::from_slice(alloc, &[0])?,
    })?;
    let mut links = Items::new(alloc);
    links.push(LinkImage {
        link: 1,
        queues: 1,
        groups,
    })?;
    Ok(links)
}

fn cells(alloc: Global) -> Result<Items<CellImage>, AllocError>
    ensures { IfOk result (λ cells. cells
        ≡ record { takes = 0; emits = 0; words = 0; counters = 0; stack = 1; code = Push (pos 7) ∷ Write 0 ∷ Halt ∷ [] }
        ∷ record { takes = 0; emits = 1; words = 1; counters = 0; stack = 1; code = Read 0 0 ∷ Load 0 ∷ Emit ∷ Halt ∷ [] }
        ∷ []) }
{
    let mut cells = Items::new(alloc);
    cells.push(writer(alloc)?)?;
    cells.push(reader(alloc)?)?;
    Ok(cells)
}

fn writer(alloc: Global) -> Result<CellImage, AllocError>
    ensures { IfOk result (λ cell. cell ≡ record {
      takes = 0;
      emits = 0;
      words = 0;
      counters = 0;
      stack = 1;
      code = Push (pos 7) ∷ Write 0 ∷ Halt ∷ [];
    }) }
{
    let code = Items::from_slice(alloc, &[Instr::Push(7), Instr::Write(0), Instr::Halt])?;
    Ok(CellImage {
        takes: 0,
        emits: 0,
        words: 0,
        counters: 0,
        stack: 1,
        code,
    })
}

fn reader(alloc: Global) -> Result<CellImage, AllocError>
    ensures { IfOk result (λ cell. cell ≡ record {
      takes = 0;
      emits = 1;
      words = 1;
      counters = 0;
      stack = 1;
      code = Read 0 0 ∷ Load 0 ∷ Emit ∷ Halt ∷ [];
    }) }
{
    let read = Instr::Read {
        message: 0,
        word: 0,
    };
    let code = Items::from_slice(alloc, &[read, Instr::Load(0), Instr::Emit, Instr::Halt])?;
    Ok(CellImage {
        takes: 0,
        emits: 1,
        words: 1,
        counters: 0,
        stack: 1,
        code,
    })
}
