ghost use Rattle.std.specs.Prelude.{◌≡◌, ◌++◌, OnOk, IfOk};
ghost use Rattle.std.specs.List.{flat_map};
ghost use Rattle.sys_base.specs.Key.{key_text};
ghost use Rattle.cell_tree.specs.Canonical.{dir_text, place_pieces, array_pieces, setting_pieces, buffer_pieces, settings_pieces, link_pieces, ends_pieces, route_pieces, label_pieces, message_pieces, length_pieces, var_pieces, contents_pieces, cell_pieces, canonical};
ghost use Rattle.cell_tree.specs.Pieces.{joined};

use crate::print_statement::write_statements;
use crate::source::{CellDecl, LinkDecl, MessageDecl, Place, Source, VarDecl};
use crate::words::{
    write_key, write_key_line, write_mark, write_mark_line, write_number, write_word,
};
use cell_lexer::{Key, Mark};
use std::alloc::Global;
use sys_base::{Dir, Memory};

/// The canonical text of a source (`docs/language.md`, "Canonical text").
///
/// Its recursion is as deep as the tree. The deepest printable tree has 17 open braces, and an expression of fewer
/// than 256 nested operators, so the stack stays small.
pub fn print(alloc: Global, source: &Source) -> Result<Vec<u8>, Memory>
    ensures { IfOk result (λ text. text.items ≡ canonical source.now) }
{
    let mut out = Vec::new(alloc);
    write_settings(&mut out, source)?;
    write_links(&mut out, source.links.as_slice())?;
    write_messages(&mut out, source.messages.as_slice())?;
    write_cells(&mut out, source.cells.as_slice())?;
    out.push(b'\n')?;
    Ok(out)
}

fn write_settings(out: &mut Vec<u8>, source: &Source) -> Result<(), Memory>
    ensures { OnOk result (out.new.items ≡ out.old.items ++ joined (settings_pieces source.now)) }
{
    write_array(out, source)?;
    write_setting(out, Key::Queues, source.queues)?;
    write_buffer(out, source.buffer)
}

fn write_array(out: &mut Vec<u8>, source: &Source) -> Result<(), Memory>
    ensures { OnOk result (out.new.items ≡ out.old.items ++ joined (array_pieces source.now)) }
{
    write_key(out, b"", Key::Array)?;
    write_number(out, b" ", source.rows)?;
    write_word(out, b" ", b"x")?;
    write_number(out, b" ", source.cols)?;
    write_mark(out, b"", Mark::Semicolon)
}

/// Writes a line that gives one number.
fn write_setting(out: &mut Vec<u8>, key: Key, number: u64) -> Result<(), Memory>
    ensures { OnOk result (out.new.items ≡ out.old.items ++ joined (setting_pieces (key_text key) number)) }
{
    write_key_line(out, 0, key)?;
    write_number(out, b" ", number)?;
    write_mark(out, b"", Mark::Semicolon)
}

/// Writes the `buffer` line, where there is a buffer.
fn write_buffer(out: &mut Vec<u8>, buffer: u64) -> Result<(), Memory>
    ensures { OnOk result (out.new.items ≡ out.old.items ++ joined (buffer_pieces buffer)) }
{
    if buffer != 0 {
        write_setting(out, Key::Buffer, buffer)?;
    }
    Ok(())
}

fn write_links(out: &mut Vec<u8>, links: &[LinkDecl]) -> Result<(), Memory>
    ensures { OnOk result (out.new.items ≡ out.old.items ++ joined (flat_map link_pieces links.now)) }
{
    for link in links {
        write_link(out, link)?;
    }
    Ok(())
}

fn write_link(out: &mut Vec<u8>, link: &LinkDecl) -> Result<(), Memory>
    ensures { OnOk result (out.new.items ≡ out.old.items ++ joined (link_pieces link.now)) }
{
    write_key_line(out, 0, Key::Link)?;
    write_place(out, link.place)?;
    write_word(out, b" ", dir_text(link.dir))?;
    write_key(out, b" ", Key::Queues)?;
    write_number(out, b" ", link.queues)?;
    write_mark(out, b"", Mark::Semicolon)
}

fn write_messages(out: &mut Vec<u8>, messages: &[MessageDecl]) -> Result<(), Memory>
    ensures { OnOk result (out.new.items ≡ out.old.items ++ joined (flat_map message_pieces messages.now)) }
{
    for message in messages {
        write_message(out, message)?;
    }
    Ok(())
}

fn write_message(out: &mut Vec<u8>, message: &MessageDecl) -> Result<(), Memory>
    ensures { OnOk result (out.new.items ≡ out.old.items ++ joined (message_pieces message.now)) }
{
    write_key_line(out, 0, Key::Message)?;
    write_word(out, b" ", message.name.bytes())?;
    write_ends(out, message)?;
    write_route(out, message.route.as_slice())?;
    write_label(out, message.label)?;
    write_mark(out, b"", Mark::Semicolon)
}

/// Writes a message's sender and receiver.
fn write_ends(out: &mut Vec<u8>, message: &MessageDecl) -> Result<(), Memory>
    ensures { OnOk result (out.new.items ≡ out.old.items ++ joined (ends_pieces message.now)) }
{
    write_key(out, b" ", Key::From)?;
    write_place(out, message.from)?;
    write_key(out, b" ", Key::To)?;
    write_place(out, message.to)
}

/// Writes a route, where one is given.
#[tactic(auto, using(crate::proofs::Steps::route_given))]
fn write_route(out: &mut Vec<u8>, route: &[Dir]) -> Result<(), Memory>
    ensures { OnOk result (out.new.items ≡ out.old.items ++ joined (route_pieces route.now)) }
{
    if route.is_empty() {
        return Ok(());
    }
    write_key(out, b" ", Key::Route)?;
    for dir in route {
        write_word(out, b" ", dir_text(*dir))?;
    }
    Ok(())
}

/// Writes a label, where one is given.
fn write_label(out: &mut Vec<u8>, label: Option<u64>) -> Result<(), Memory>
    ensures { OnOk result (out.new.items ≡ out.old.items ++ joined (label_pieces label)) }
{
    if let Some(label) = label {
        write_key(out, b" ", Key::Label)?;
        write_number(out, b" ", label)?;
    }
    Ok(())
}

fn write_cells(out: &mut Vec<u8>, cells: &[CellDecl]) -> Result<(), Memory>
    ensures { OnOk result (out.new.items ≡ out.old.items ++ joined (flat_map cell_pieces cells.now)) }
{
    for cell in cells {
        write_cell(out, cell)?;
    }
    Ok(())
}

fn write_cell(out: &mut Vec<u8>, cell: &CellDecl) -> Result<(), Memory>
    ensures { OnOk result (out.new.items ≡ out.old.items ++ joined (cell_pieces cell.now)) }
{
    write_key_line(out, 0, Key::Cell)?;
    write_place(out, cell.place)?;
    write_mark(out, b" ", Mark::OpenBrace)?;
    write_contents(out, cell)?;
    write_mark_line(out, 0, Mark::CloseBrace)
}

/// Writes a cell's variables and its statements.
fn write_contents(out: &mut Vec<u8>, cell: &CellDecl) -> Result<(), Memory>
    ensures { OnOk result (out.new.items ≡ out.old.items ++ joined (contents_pieces cell.now)) }
{
    write_vars(out, cell.vars.as_slice())?;
    write_statements(out, 1, cell.body.as_slice())
}

fn write_vars(out: &mut Vec<u8>, vars: &[VarDecl]) -> Result<(), Memory>
    ensures { OnOk result (out.new.items ≡ out.old.items ++ joined (flat_map var_pieces vars.now)) }
{
    for variable in vars {
        write_var(out, variable)?;
    }
    Ok(())
}

fn write_var(out: &mut Vec<u8>, variable: &VarDecl) -> Result<(), Memory>
    ensures { OnOk result (out.new.items ≡ out.old.items ++ joined (var_pieces variable.now)) }
{
    write_key_line(out, 1, Key::Var)?;
    write_word(out, b" ", variable.name.bytes())?;
    write_length(out, variable.length)?;
    write_mark(out, b"", Mark::Semicolon)
}

/// Writes the length of an array, where there is one.
fn write_length(out: &mut Vec<u8>, length: Option<u64>) -> Result<(), Memory>
    ensures { OnOk result (out.new.items ≡ out.old.items ++ joined (length_pieces length)) }
{
    if let Some(length) = length {
        write_mark(out, b"", Mark::OpenBracket)?;
        write_number(out, b"", length)?;
        write_mark(out, b"", Mark::CloseBracket)?;
    }
    Ok(())
}

/// Writes a place after a space.
fn write_place(out: &mut Vec<u8>, place: Place) -> Result<(), Memory>
    ensures { OnOk result (out.new.items ≡ out.old.items ++ joined (place_pieces place)) }
{
    write_number(out, b" ", place.row)?;
    write_mark(out, b"", Mark::Dot)?;
    write_number(out, b"", place.col)
}

fn dir_text(dir: Dir) -> &'static [u8]
    ensures { result.now ≡ dir_text dir }
{
    match dir {
        Dir::N => b"N",
        Dir::E => b"E",
        Dir::S => b"S",
        Dir::W => b"W",
    }
}
