ghost use Rattle.std.specs.Prelude.{◌≡◌, ◌<◌, ◌≤◌, ℕ, [], Some, IfErr, IfOk, OnOk, length, slice_index, slice_index_or};
ghost use Rattle.std.specs.List.{filter_map};
ghost use Rattle.serde_json.specs.View.{view};
ghost use Rattle.sys_base.specs.Grid.{cell_count};
ghost use Rattle.sys_base.specs.declared.limits.TheConstants.{CELLS};
ghost use Rattle.stream_io.specs.Checking.{BreaksCount, BreaksReading};
ghost use Rattle.stream_io.specs.Reading.{HasInputs, Means, Refuses, cell_list, integer_of, integers_at, lists_of};

use crate::error::InputError;
use crate::keys::key_of;
use crate::members::check_members;
use serde_json::Value;
use std::alloc::{AllocError, Global};
use sys_base::{Grid, Inputs, Items, Memory};

/// The inputs of the cells, from the bytes of an input file. `takes` is how many words each cell takes. Each error
/// comes exactly where its rule is the first that the file breaks (`specs/Reading.antt`).
pub fn read_inputs(
    alloc: Global,
    bytes: &[u8],
    grid: &Grid,
    takes: &[u32],
) -> Result<Inputs, InputError>
    requires { length takes.now ≡ cell_count grid.now }
    ensures inputs { IfOk result (λ inputs. HasInputs bytes.now grid.now takes.now inputs.cells) }
    ensures refused { IfErr result (Refuses bytes.now grid.now takes.now) }
{
    let value = read_value(alloc, bytes)?;
    let Some(map) = value.as_object() else {
        return Err(InputError::NotObject);
    };
    check_members(alloc, map, grid)?;
    let inputs = lists_of(alloc, &value, grid)?;
    check_counts(&inputs, takes)?;
    Ok(inputs)
}

/// The value that the bytes mean.
fn read_value(alloc: Global, bytes: &[u8]) -> Result<Value, InputError>
    ensures ok { IfOk result (λ value. Means bytes.now (view value)) }
    ensures err { IfErr result (BreaksReading bytes.now) }
{
    match Value::from_slice(alloc, bytes) {
        Ok(value) => Ok(value),
        Err(error) if error.is_memory() => Err(InputError::Memory),
        Err(_) => Err(InputError::NotJson),
    }
}

/// The integers of each cell: those at its key.
fn lists_of(alloc: Global, value: &Value, grid: &Grid) -> Result<Inputs, Memory>
    ensures lists { IfOk result (λ inputs. inputs.cells ≡ lists_of grid.now (view value.now)) }
    ensures len { IfOk result (λ inputs. length inputs.cells ≡ cell_count grid.now) }
    ensures few { cell_count grid.now ≤ CELLS }
{
    let mut cells = Items::new(alloc);
    for cell in 0..grid.cells() {
        cells.push(list_at(alloc, value, grid, cell)?)?;
    }
    Ok(Inputs { cells })
}

/// The integers at the key of a cell.
fn list_at(alloc: Global, value: &Value, grid: &Grid, cell: u16) -> Result<Items<i64>, Memory>
    requires { cell < cell_count grid.now }
    ensures { IfOk result (λ list. list ≡ cell_list grid.now (view value.now) cell) }
{
    let key = key_of(alloc, grid, cell)?;
    match value.get(key.as_str()) {
        Some(list) => integers_of(alloc, list),
        None => Ok(Items::new(alloc)),
    }
}

/// The integers of a list, and none of any other value.
fn integers_of(alloc: Global, value: &Value) -> Result<Items<i64>, Memory>
    ensures { IfOk result (λ integers. integers ≡ integers_at (Some (view value.now))) }
{
    match value.as_array() {
        Some(list) => Ok(Items::from_vec(integers_among(alloc, list)?)),
        None => Ok(Items::new(alloc)),
    }
}

/// The integers among some items.
fn integers_among(alloc: Global, list: &[Value]) -> Result<Vec<i64>, AllocError>
    ensures { IfOk result (λ integers. integers.items ≡ filter_map (λ v. integer_of (view v)) list.now) }
{
    list.iter().filter_map(|item| item.as_i64()).collect(alloc)
}

/// Checks that each cell has as many words as it takes.
fn check_counts(inputs: &Inputs, takes: &[u32]) -> Result<(), InputError>
    requires same { length takes.now ≡ length inputs.now.cells }
    requires few { length takes.now ≤ CELLS }
    ensures ok { OnOk result ((cell : ℕ) → cell < length takes.now
        → length (slice_index_or inputs.now.cells cell []) ≡ slice_index takes.now cell) }
    ensures err { IfErr result (BreaksCount takes.now inputs.now.cells) }
{
    let lists = inputs.cells.as_slice();
    for (cell, need) in takes.iter().enumerate() {
        let Ok(has) = u32::try_from(lists[cell].len()) else {
            return Err(InputError::Memory);
        };
        if has != *need {
            let cell = cell as u16;
            return Err(InputError::Count {
                cell,
                need: *need,
                has,
            });
        }
    }
    Ok(())
}
