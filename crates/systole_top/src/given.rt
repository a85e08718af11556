//! What an input file gives.
ghost use Rattle.std.specs.Fmt.{decimal};
ghost use Rattle.std.specs.Option.{option_map};
ghost use Rattle.std.specs.Prelude.{◌≡◌, ◌≢◌, ◌++◌, IfOk, OnOk, Some, codes};
ghost use Rattle.cell_code.specs.Images.{IsShaped};
ghost use Rattle.stream_io.specs.declared.error.InputError.TheVariants as Input;
ghost use Rattle.sys_base.specs.Names.{cell_text};
ghost use Rattle.systole_top.specs.Commands.{given_in, given_of};
ghost use Rattle.systole_top.specs.Given.{IsGiven, takes_of};
ghost use Rattle.systole_top.specs.Only.{IsOnly};
ghost use Rattle.systole_top.specs.Texts.{input_line, long_input_line};
ghost use Rattle.systole_top.specs.bodies.Inputs.{IsCountedIn, IsPlaced};
ghost use Rattle.systole_top.specs.bodies.Runs.{Steps, Shows};
ghost use Rattle.systole_top.specs.bodies.Stops.{bytes_of, ended, given_by};

use crate::answer::Stop;
use crate::read::read_file;
use cell_code::Image;
use std::alloc::{AllocError, Global};
use stream_io::{InputError, one_input, read_inputs};
use sys_base::{CellName, Grid, INPUT_BYTES, Inputs, Memory};
use sys_outside::Shelf;

/// What an input file gives.
#[derive(Debug, Drop)]
pub enum Given {
    /// The inputs of the cells.
    Taken(Inputs),
    /// It breaks a rule, and this is the line on the first one.
    Bad(Vec<u8>),
}

/// Reads an input file, for the cells of an image.
#[tactic(auto, using(crate::proofs::Trees::step_stop))]
pub fn given_in<S: Shelf>(
    alloc: Global,
    shelf: &mut S,
    image: &Image,
    input: &str,
) -> Result<Given, Stop>
    requires { IsShaped image.now }
    ensures given { Steps (S.held shelf.old) (S.held shelf.new) (S.faults shelf.old) (S.faults shelf.new)
        (given_in image.now input.now) (ended given_by result) }
    ensures counted { IfOk result (IsCountedIn image.now) }
{
    let bytes = read_file(alloc, shelf, input, INPUT_BYTES)?;
    given_of(alloc, image, bytes)
}

fn given_of(alloc: Global, image: &Image, bytes: Option<Vec<u8>>) -> Result<Given, Stop>
    requires { IsShaped image.now }
    ensures shows { Shows (given_of image.now (option_map bytes_of bytes)) (ended given_by result) }
    ensures counted { IfOk result (IsCountedIn image.now) }
{
    match bytes {
        None => Ok(Given::Bad(long_input_line(alloc)?)),
        Some(bytes) => Ok(read(alloc, image, &bytes)?),
    }
}

/// What the bytes of an input file give.
fn read(alloc: Global, image: &Image, bytes: &[u8]) -> Result<Given, Memory>
    requires { IsShaped image.now }
    ensures counted { IfOk result (IsCountedIn image.now) }
    ensures only { IfOk result (λ given. IsOnly (IsGiven image.now (Some bytes.now)) (given_by given)) }
{
    one_input();
    let takes = takes_of(alloc, image)?;
    match read_inputs(alloc, bytes, &image.grid, &takes) {
        Ok(inputs) => Ok(Given::Taken(inputs)),
        Err(error) => Ok(Given::Bad(input_line(alloc, &image.grid, &error)?)),
    }
}

/// How many words each cell takes.
fn takes_of(alloc: Global, image: &Image) -> Result<Vec<u32>, AllocError>
    ensures { IfOk result (λ takes. takes.items ≡ takes_of image.now) }
{
    image
        .cells
        .as_slice()
        .iter()
        .map(|cell| cell.takes)
        .collect(alloc)
}

#[tactic(auto, unfolding(crate::specs::Texts::long_input_line))]
fn long_input_line(alloc: Global) -> Result<Vec<u8>, AllocError>
    ensures { IfOk result (λ line. line.items ≡ long_input_line) }
{
    Ok(format!(in alloc; "input: longer than {INPUT_BYTES} bytes\n")?.into_bytes())
}

/// The line on a rule that is broken. Want of memory breaks none.
#[tactic(auto, unfolding(crate::specs::Texts::input_line))]
fn input_line(alloc: Global, grid: &Grid, error: &InputError) -> Result<Vec<u8>, Memory>
    requires { IsPlaced grid.now error.now }
    ensures line { IfOk result (λ line. line.items ≡ input_line grid.now error.now) }
    ensures rule { OnOk result (error.now ≢ Input.Memory) }
{
    match error {
        InputError::NotJson => Ok(Vec::from_slice(alloc, b"input: not JSON\n")?),
        InputError::NotObject => Ok(Vec::from_slice(alloc, b"input: not an object\n")?),
        InputError::UnknownCell { key } => key_line(alloc, key.as_slice(), b" is not a cell\n"),
        InputError::NotList { key } => key_line(alloc, key.as_slice(), b" is not a list\n"),
        InputError::NotInteger { key, at } => {
            let rule = integer_rule(alloc, *at)?;
            key_line(alloc, key.as_slice(), &rule)
        }
        InputError::Count { cell, need, has } => {
            count_line(alloc, grid.cell_name(*cell), *need, *has)
        }
        InputError::Memory => Err(Memory),
    }
}

/// A line on a key.
fn key_line(alloc: Global, key: &[u8], rule: &[u8]) -> Result<Vec<u8>, Memory>
    ensures { IfOk result (λ line. line.items ≡ codes "input: " ++ key.now ++ rule.now) }
{
    let mut line = Vec::from_slice(alloc, b"input: ")?;
    line.extend_from_slice(key)?;
    line.extend_from_slice(rule)?;
    Ok(line)
}

fn integer_rule(alloc: Global, at: u32) -> Result<Vec<u8>, Memory>
    ensures { IfOk result (λ rule. rule.items ≡ codes " at " ++ decimal at ++ codes " is no integer\n") }
{
    Ok(format!(in alloc; " at {at} is no integer\n")?.into_bytes())
}

/// The line on a cell whose words are too few or too many.
fn count_line(alloc: Global, cell: CellName, need: u32, has: u32) -> Result<Vec<u8>, Memory>
    ensures { IfOk result (λ line. line.items ≡ codes "input: cell " ++ cell_text cell ++ codes " needs "
        ++ decimal need ++ codes " words and has " ++ decimal has ++ codes "\n") }
{
    Ok(format!(in alloc; "input: cell {cell} needs {need} words and has {has}\n")?.into_bytes())
}
