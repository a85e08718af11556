ghost use Rattle.std.specs.Prelude.{◌-◌, ◌≡◌, ◌<◌, ◌≤◌, true, [], ◌∷◌, List, All, length, map, replicate, slice_set, MatchResult, IfOk, IfErr, ◌+◌};
ghost use Rattle.sys_base.specs.Grid.{cell_count};
ghost use Rattle.cell_lexer.specs.declared.limits.TheConstants.{PIECE_TOKENS, OPEN_BRACES};
ghost use Rattle.cell_tree.specs.Depth.{cell_stack, cell_loops};
ghost use Rattle.cell_tree.specs.declared.source.Source.{Source};
ghost use Rattle.cell_types.specs.Code.{End};
ghost use Rattle.cell_types.specs.bodies.Declarations.{place_faults, HasMarks};
ghost use Rattle.cell_types.specs.Faults.{faults_behind, cell_faults, IsFirst};
ghost use Rattle.cell_types.specs.Names.{cell_index, named_message, extent_of};
ghost use Rattle.cell_types.specs.Resolved.{cell_with, program_of, resolved_block};
ghost use Rattle.cell_types.specs.bodies.Scopes.{Resolves, inner_faults, inner_code, scope_in};
ghost use Rattle.cell_types.specs.bodies.Tables.{named_in};
ghost use Rattle.cell_types.specs.Typed.{plain_cell, block_of};
ghost use Rattle.cell_types.specs.Written.{WrittenCell, written, written_block};
ghost use Rattle.cell_types.specs.Cost.{IsLimited, block_cost};
ghost use Rattle.cell_types.specs.Depth.{block_loops, block_stack};
ghost use Rattle.cell_types.specs.Statics.{block_faults};
ghost use Rattle.cell_types.specs.declared.error.StaticError.TheVariants as E;

use crate::cell::Cell;
use crate::costs::{act_cost, both};
use crate::depth::{action_loops, action_stack};
use crate::error::{StaticError, What};
use crate::scope::Scope;
use crate::statement::TypedStmt;
use crate::statements::resolve_act;
use crate::table::MessageTable;
use crate::variables::Variables;
use cell_tree::{CellDecl, Stmt};
use std::alloc::Global;
use sys_base::{Grid, Items};

/// The programs of all cells of the grid by their indices, or the first fault of the declared cells.
pub(crate) fn resolve_cells(
    alloc: Global,
    grid: &Grid,
    messages: &MessageTable,
    declared: Items<CellDecl>,
) -> Result<Items<Cell>, StaticError>
    requires stack { All (λ cell. cell_stack cell ≤ PIECE_TOKENS) declared }
    requires loops { All (λ cell. cell_loops cell ≤ OPEN_BRACES - 1) declared }
    ensures { (source : Source) → grid.now ≡ extent_of (written source) → source.cells ≡ declared
        → named_in messages.now ≡ map (named_message grid.now) source.messages
        → Resolves (faults_behind (cell_faults (written source)) [] (written source).cells) (map plain_cell)
        (program_of source).cells result }
{
    let count = usize::from(grid.cells());
    let mut marks = vec![in alloc; false; count]?;
    let mut cells = empty_cells(alloc, count)?;
    for cell in declared.into_vec() {
        let index = declare_cell(grid, &mut marks, &cell)?;
        cells[usize::from(index)] = resolve_cell(alloc, messages, index, cell)?;
    }
    Ok(Items::from_vec(cells))
}

/// This many cells without a program.
fn empty_cells(alloc: Global, count: usize) -> Result<Vec<Cell>, StaticError>
    ensures cells { IfOk result (λ cells. map plain_cell cells.items ≡ replicate count (cell_with 0 End)) }
    ensures memory { IfErr result (λ e. e ≡ E.Memory) }
{
    let mut cells = Vec::new(alloc);
    for _ in 0..count {
        cells.push(Cell {
            words: 0,
            counters: 0,
            stack: 0,
            body: Vec::new(alloc),
            cost: Some(0),
        })?;
    }
    Ok(cells)
}

/// Marks the place of one cell more, and gives its index.
fn declare_cell(grid: &Grid, declared: &mut Vec<bool>, cell: &CellDecl) -> Result<u16, StaticError>
    requires { length declared.old.items ≡ cell_count grid.now }
    ensures faults { (earlier : List WrittenCell) → HasMarks grid.now earlier declared.old.items
        → MatchResult result (λ _. place_faults grid.now earlier cell.now.place cell.now.line ≡ [])
        (IsFirst (place_faults grid.now earlier cell.now.place cell.now.line)) }
    ensures index { IfOk result (λ index. (index ≡ cell_index grid.now cell.now.place) × (index < cell_count grid.now)
        × (declared.new.items ≡ slice_set declared.old.items index true)) }
{
    let line = cell.line;
    let Some(index) = grid.cell(cell.place.row, cell.place.col) else {
        return Err(StaticError::OutsideGrid { line });
    };
    let at = usize::from(index);
    if declared[at] {
        return Err(StaticError::Twice {
            what: What::Cell(index),
            line,
        });
    }
    declared[at] = true;
    Ok(index)
}

/// The program of the cell with this index, by its declaration, or the first fault inside it.
fn resolve_cell(
    alloc: Global,
    messages: &MessageTable,
    index: u16,
    cell: CellDecl,
) -> Result<Cell, StaticError>
    requires stack { cell_stack cell ≤ PIECE_TOKENS }
    requires loops { cell_loops cell ≤ OPEN_BRACES - 1 }
    ensures { Resolves (inner_faults (named_in messages.now) index cell) plain_cell
        (inner_code (named_in messages.now) index cell) result }
{
    let CellDecl { vars, body, .. } = cell;
    let variables = Variables::new(alloc, messages, vars.as_slice())?;
    let words = variables.words;
    let mut scope = Scope::new(alloc, index, messages, variables);
    let Body {
        statements,
        stack,
        counters,
        cost,
    } = resolve_body(alloc, &mut scope, body)?;
    Ok(Cell {
        words,
        counters,
        stack,
        body: statements,
        cost,
    })
}

/// The statements of a cell, and what they need: the deepest stack, the most loops inside one another, and their cost.
#[derive(Drop)]
struct Body {
    statements: Vec<TypedStmt>,
    stack: u16,
    counters: u8,
    cost: Option<u32>,
}

/// The statements of a cell, their names resolved. What a statement needs is counted right after it is resolved, while
/// its expressions are in the processor's cache.
fn resolve_body(alloc: Global, scope: &mut Scope, body: Items<Stmt>) -> Result<Body, StaticError>
    requires stack { block_stack (resolved_block (scope_in scope.old) (written_block body)) ≤ PIECE_TOKENS }
    requires loops { length (scope_in scope.old).counters
        + block_loops (resolved_block (scope_in scope.old) (written_block body)) ≤ OPEN_BRACES - 1 }
    ensures block { Resolves (block_faults (scope_in scope.old) (written_block body))
        (λ made. block_of made.statements.items) (resolved_block (scope_in scope.old) (written_block body)) result }
    ensures stack { IfOk result (λ made. made.stack ≡ block_stack (block_of made.statements.items)) }
    ensures counters { IfOk result (λ made. made.counters ≡ block_loops (block_of made.statements.items)) }
    ensures cost { IfOk result (λ made. IsLimited (block_cost (block_of made.statements.items)) made.cost) }
{
    let mut statements = Vec::with_capacity(alloc, body.len())?;
    let mut stack = 0;
    let mut counters = 0;
    let mut cost = Some(0);
    for statement in body.into_vec() {
        let Stmt { line, act } = statement;
        let act = resolve_act(alloc, scope, line, act)?;
        stack = action_stack(&act).max(stack);
        counters = action_loops(&act).max(counters);
        cost = both(cost, act_cost(&act));
        statements.push(TypedStmt { line, act })?;
    }
    Ok(Body {
        statements,
        stack,
        counters,
        cost,
    })
}
