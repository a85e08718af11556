ghost use Rattle.std.specs.Prelude.{◌≡◌, ◌++◌, [], ◌∷◌, OnOk, codes, map};
ghost use Rattle.std.specs.List.{flat_map};
ghost use Rattle.std.specs.Fmt.{decimal};
ghost use Rattle.object_io.specs.Objects.{message_line, end_words, measure_words, link_line, cell_line, cell_lines, count_words, need_words, instruction_line, group_text, with_commas, behind_commas, spaced};

use crate::words::{write_field, write_next_number, write_next_word, write_number, write_word};
use crate::write_instruction::write_instruction;
use cell_code::{CellImage, Group, Instr, LinkImage, MessageImage};
use sys_base::Memory;

/// Writes the line of a message.
pub fn write_message(out: &mut Vec<u8>, index: u64, message: &MessageImage) -> Result<(), Memory>
    ensures { OnOk result (out.new.items ≡ out.old.items ++ message_line (index, message.now)) }
{
    write_opening(out, b"message", index)?;
    write_ends(out, message)?;
    write_measures(out, message)?;
    write_route(out, message.route.as_slice())?;
    out.push(b'\n')?;
    Ok(())
}

/// Writes the first word of a line, and a number after a space.
fn write_opening(out: &mut Vec<u8>, word: &[u8], number: u64) -> Result<(), Memory>
    ensures { OnOk result (out.new.items ≡ out.old.items ++ word.now ++ spaced (decimal number ∷ [])) }
{
    write_word(out, word)?;
    write_next_number(out, number)
}

/// Writes a message's sender and receiver.
fn write_ends(out: &mut Vec<u8>, message: &MessageImage) -> Result<(), Memory>
    ensures { OnOk result (out.new.items ≡ out.old.items ++ spaced (end_words message.now)) }
{
    write_field(out, b"from", message.from.into())?;
    write_field(out, b"to", message.to.into())
}

/// Writes a message's length and label.
fn write_measures(out: &mut Vec<u8>, message: &MessageImage) -> Result<(), Memory>
    ensures { OnOk result (out.new.items ≡ out.old.items ++ spaced (measure_words message.now)) }
{
    write_field(out, b"length", message.length.into())?;
    write_field(out, b"label", message.label.into())
}

/// Writes a route.
fn write_route(out: &mut Vec<u8>, route: &[u16]) -> Result<(), Memory>
    ensures { OnOk result (out.new.items ≡ out.old.items ++ spaced (codes "route" ∷ map decimal route.now)) }
{
    write_next_word(out, b"route")?;
    write_ids(out, route)
}

/// Writes the ids of links, each after a space.
fn write_ids(out: &mut Vec<u8>, links: &[u16]) -> Result<(), Memory>
    ensures { OnOk result (out.new.items ≡ out.old.items ++ spaced (map decimal links.now)) }
{
    for link in links {
        write_next_number(out, u64::from(*link))?;
    }
    Ok(())
}

/// Writes the line of a link.
pub fn write_link(out: &mut Vec<u8>, link: &LinkImage) -> Result<(), Memory>
    ensures { OnOk result (out.new.items ≡ out.old.items ++ link_line link.now) }
{
    write_opening(out, b"link", link.link.into())?;
    write_field(out, b"queues", link.queues.into())?;
    write_next_word(out, b"groups")?;
    write_groups(out, link.groups.as_slice())?;
    out.push(b'\n')?;
    Ok(())
}

/// Writes groups, each after a space.
fn write_groups(out: &mut Vec<u8>, groups: &[Group]) -> Result<(), Memory>
    ensures { OnOk result (out.new.items ≡ out.old.items ++ spaced (map group_text groups.now)) }
{
    for group in groups {
        write_group(out, group)?;
    }
    Ok(())
}

/// Writes a group after a space.
fn write_group(out: &mut Vec<u8>, group: &Group) -> Result<(), Memory>
    ensures { OnOk result (out.new.items ≡ out.old.items ++ spaced (group_text group.now ∷ [])) }
{
    out.push(b' ')?;
    write_number(out, group.label.into())?;
    out.push(b':')?;
    write_members(out, group.members.as_slice())
}

/// Writes members, one comma apart.
fn write_members(out: &mut Vec<u8>, members: &[u16]) -> Result<(), Memory>
    ensures { OnOk result (out.new.items ≡ out.old.items ++ with_commas members.now) }
{
    match members {
        [] => Ok(()),
        [first, others @ ..] => {
            write_number(out, u64::from(*first))?;
            write_others(out, others)
        }
    }
}

/// Writes members, each after a comma.
fn write_others(out: &mut Vec<u8>, members: &[u16]) -> Result<(), Memory>
    ensures { OnOk result (out.new.items ≡ out.old.items ++ behind_commas members.now) }
{
    for member in members {
        write_other(out, u64::from(*member))?;
    }
    Ok(())
}

/// Writes a number after a comma.
fn write_other(out: &mut Vec<u8>, number: u64) -> Result<(), Memory>
    ensures { OnOk result (out.new.items ≡ out.old.items ++ behind_commas (number ∷ [])) }
{
    out.push(b',')?;
    write_number(out, number)
}

/// Writes the line of a cell, and those of its instructions.
pub fn write_cell(out: &mut Vec<u8>, index: u64, cell: &CellImage) -> Result<(), Memory>
    ensures { OnOk result (out.new.items ≡ out.old.items ++ cell_lines (index, cell.now)) }
{
    write_cell_line(out, index, cell)?;
    write_code(out, cell.code.as_slice())
}

/// Writes the line of a cell.
fn write_cell_line(out: &mut Vec<u8>, index: u64, cell: &CellImage) -> Result<(), Memory>
    ensures { OnOk result (out.new.items ≡ out.old.items ++ cell_line index cell.now) }
{
    write_opening(out, b"cell", index)?;
    write_counts(out, cell)?;
    write_needs(out, cell)?;
    out.push(b'\n')?;
    Ok(())
}

/// Writes how many words a cell takes and emits.
fn write_counts(out: &mut Vec<u8>, cell: &CellImage) -> Result<(), Memory>
    ensures { OnOk result (out.new.items ≡ out.old.items ++ spaced (count_words cell.now)) }
{
    write_field(out, b"takes", cell.takes.into())?;
    write_field(out, b"emits", cell.emits.into())
}

/// Writes how many words, counters and places of its stack a cell needs.
fn write_needs(out: &mut Vec<u8>, cell: &CellImage) -> Result<(), Memory>
    ensures { OnOk result (out.new.items ≡ out.old.items ++ spaced (need_words cell.now)) }
{
    write_field(out, b"words", cell.words.into())?;
    write_field(out, b"counters", cell.counters.into())?;
    write_field(out, b"stack", cell.stack.into())
}

/// Writes the lines of instructions.
fn write_code(out: &mut Vec<u8>, code: &[Instr]) -> Result<(), Memory>
    ensures { OnOk result (out.new.items ≡ out.old.items ++ flat_map instruction_line code.now) }
{
    for instr in code {
        write_instruction(out, *instr)?;
    }
    Ok(())
}
