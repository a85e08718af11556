use cell_code::Instr;
use cell_codegen::{code_is_sized, emit_cell};
use cell_lexer::tokens;
use cell_parser::{few_nodes, parse};
use cell_types::{few_instructions, resolve};
use std::alloc::Global;
use std::test::Fail;

/// The code of the first cell of a short source.
pub fn first_code(alloc: Global, text: &[u8]) -> Result<Vec<Instr>, Fail> {
    if text.len() > 1000 {
        return Err("too long".into());
    }
    few_nodes();
    few_instructions();
    code_is_sized();
    let found = tokens(alloc, text)?;
    let program = resolve(alloc, parse(alloc, text, &found)?)?;
    if program.grid().cells() == 0 {
        return Err("no cell".into());
    }
    Ok(emit_cell(alloc, &program, 0)?)
}
