ghost use Rattle.std.specs.Prelude.{◌≡◌, ◌++◌, OnOk, IfOk};
ghost use Rattle.std.specs.List.{flat_map, enumerate_from};
ghost use Rattle.cell_code.specs.Images.{IsListed};
ghost use Rattle.object_io.specs.Objects.{array_line, header, message_line, link_line, cell_lines, object_text};

use crate::words::{write_field, write_line, write_next_number, write_word};
use crate::write_parts::{write_cell, write_link, write_message};
use cell_code::{CellImage, Image, LinkImage, MessageImage};
use std::alloc::Global;
use sys_base::{Grid, Memory};

/// The text of an image (`docs/formats.md`, "Objects"), in time linear in its length.
pub fn write_object(alloc: Global, image: &Image) -> Result<Vec<u8>, Memory>
    requires { IsListed image.now }
    ensures { IfOk result (λ text. text.items ≡ object_text image.now) }
{
    let mut out = Vec::new(alloc);
    write_header(&mut out, image)?;
    write_messages(&mut out, image.messages.as_slice())?;
    write_links(&mut out, image.links.as_slice())?;
    write_cells(&mut out, image.cells.as_slice())?;
    write_line(&mut out, b"end", &[])?;
    Ok(out)
}

fn write_header(out: &mut Vec<u8>, image: &Image) -> Result<(), Memory>
    ensures { OnOk result (out.new.items ≡ out.old.items ++ header image.now) }
{
    write_line(out, b"systole", &[2])?;
    write_array(out, image.grid)?;
    write_line(out, b"buffer", &[image.buffer.into()])?;
    write_line(out, b"bound", &[image.bound.into()])
}

/// Writes the line of a grid's rows and columns.
fn write_array(out: &mut Vec<u8>, grid: Grid) -> Result<(), Memory>
    ensures { OnOk result (out.new.items ≡ out.old.items ++ array_line grid) }
{
    write_word(out, b"array")?;
    write_next_number(out, grid.rows().into())?;
    write_field(out, b"x", grid.cols().into())?;
    out.push(b'\n')?;
    Ok(())
}

fn write_messages(out: &mut Vec<u8>, messages: &[MessageImage]) -> Result<(), Memory>
    ensures { OnOk result (out.new.items ≡ out.old.items ++ flat_map message_line (enumerate_from 0 messages.now)) }
{
    for (index, message) in messages.iter().enumerate() {
        write_message(out, index as u64, message)?;
    }
    Ok(())
}

fn write_links(out: &mut Vec<u8>, links: &[LinkImage]) -> Result<(), Memory>
    ensures { OnOk result (out.new.items ≡ out.old.items ++ flat_map link_line links.now) }
{
    for link in links {
        write_link(out, link)?;
    }
    Ok(())
}

fn write_cells(out: &mut Vec<u8>, cells: &[CellImage]) -> Result<(), Memory>
    ensures { OnOk result (out.new.items ≡ out.old.items ++ flat_map cell_lines (enumerate_from 0 cells.now)) }
{
    for (index, cell) in cells.iter().enumerate() {
        write_cell(out, index as u64, cell)?;
    }
    Ok(())
}
