ghost use Rattle.std.specs.Prelude.{◌≡◌, ◌<◌, ◌*◌, [], All, IfOk, OnOk, codes, false, length, slice_index_or};
ghost use Rattle.serde_json.specs.Data.{boolean, number, unsigned};
ghost use Rattle.serde_json.specs.View.{view, members_view};
ghost use Rattle.serde_json.specs.Written.{has_float};
ghost use Rattle.stream_io.specs.Results.{line_of, meaning_data, outputs_data, peaks_data, result_data};
ghost use Rattle.sys_base.specs.Grid.{cell_count};

use crate::keys::key_of;
use crate::report::Report;
use crate::words::words_value;
use serde_json::{Map, Value, put};
use std::alloc::Global;
use sys_base::{Grid, Memory, Outputs, Word};

/// The result line of a run (`docs/formats.md`, "The result line").
pub fn result_text(alloc: Global, grid: &Grid, report: &Report) -> Result<Vec<u8>, Memory>
    requires outputs { length report.now.outputs.cells ≡ cell_count grid.now }
    requires emits { length report.now.emits ≡ cell_count grid.now }
    requires links { All (λ peak. peak.0 < 4 * cell_count grid.now) report.now.peaks }
    ensures { IfOk result (λ text. text.items ≡ line_of (result_data grid.now report.now)) }
{
    line(alloc, result_value(alloc, grid, report)?)
}

/// What a result line says, as JSON.
fn result_value(alloc: Global, grid: &Grid, report: &Report) -> Result<Value, Memory>
    requires outputs { length report.now.outputs.cells ≡ cell_count grid.now }
    requires emits { length report.now.emits ≡ cell_count grid.now }
    requires links { All (λ peak. peak.0 < 4 * cell_count grid.now) report.now.peaks }
    ensures { IfOk result (λ value. view value ≡ result_data grid.now report.now) }
{
    let mut members = Map::new(alloc);
    put(
        &mut members,
        alloc,
        "finished",
        Value::Bool(report.finished),
    )?;
    if let (false, Some(next)) = (report.finished, report.next) {
        let next = Value::String(next.to_string(alloc)?);
        put(&mut members, alloc, "next", next)?;
    }
    let outputs = outputs_value(alloc, grid, &report.outputs, report.emits.as_slice())?;
    put(&mut members, alloc, "outputs", outputs)?;
    put(
        &mut members,
        alloc,
        "peaks",
        peaks_value(alloc, grid, report.peaks.as_slice())?,
    )?;
    put(&mut members, alloc, "steps", Value::from(report.steps))?;
    Ok(Value::Object(members))
}

/// The line of a meaning: the outputs alone.
pub fn meaning_text(
    alloc: Global,
    grid: &Grid,
    outputs: &Outputs,
    emits: &[u32],
) -> Result<Vec<u8>, Memory>
    requires outputs { length outputs.now.cells ≡ cell_count grid.now }
    requires emits { length emits.now ≡ cell_count grid.now }
    ensures { IfOk result (λ text. text.items ≡ line_of (meaning_data grid.now outputs.now.cells emits.now)) }
{
    line(alloc, meaning_value(alloc, grid, outputs, emits)?)
}

/// What a meaning line says, as JSON.
fn meaning_value(
    alloc: Global,
    grid: &Grid,
    outputs: &Outputs,
    emits: &[u32],
) -> Result<Value, Memory>
    requires outputs { length outputs.now.cells ≡ cell_count grid.now }
    requires emits { length emits.now ≡ cell_count grid.now }
    ensures { IfOk result (λ value. view value ≡ meaning_data grid.now outputs.now.cells emits.now) }
{
    let mut members = Map::new(alloc);
    put(
        &mut members,
        alloc,
        "outputs",
        outputs_value(alloc, grid, outputs, emits)?,
    )?;
    Ok(Value::Object(members))
}

/// A value on a line of its own.
fn line(alloc: Global, value: Value) -> Result<Vec<u8>, Memory>
    requires { has_float (view value) ≡ false }
    ensures { IfOk result (λ text. text.items ≡ line_of (view value)) }
{
    let mut text = value.to_vec(alloc)?;
    text.push(b'\n')?;
    Ok(text)
}

/// The words of each cell that emits, at its key.
fn outputs_value(
    alloc: Global,
    grid: &Grid,
    outputs: &Outputs,
    emits: &[u32],
) -> Result<Value, Memory>
    requires outputs { length outputs.now.cells ≡ cell_count grid.now }
    requires emits { length emits.now ≡ cell_count grid.now }
    ensures { IfOk result (λ value. view value ≡ outputs_data grid.now outputs.now.cells emits.now) }
{
    let mut members = Map::new(alloc);
    for cell in 0..grid.cells() {
        if emits[usize::from(cell)] != 0 {
            let key = key_of(alloc, grid, cell)?;
            let words = words_of(outputs, cell);
            put(
                &mut members,
                alloc,
                key.as_str(),
                words_value(alloc, words)?,
            )?;
        }
    }
    Ok(Value::Object(members))
}

/// The words that a cell has emitted.
fn words_of(outputs: &Outputs, cell: u16) -> &[Word]
    ensures { result.now ≡ slice_index_or outputs.now.cells cell [] }
{
    match outputs.cells.get(usize::from(cell)) {
        Some(words) => words.as_slice(),
        None => &[],
    }
}

/// The peak of each link, at its name.
fn peaks_value(alloc: Global, grid: &Grid, peaks: &[(u16, u32)]) -> Result<Value, Memory>
    requires { All (λ peak. peak.0 < 4 * cell_count grid.now) peaks.now }
    ensures { IfOk result (λ value. view value ≡ peaks_data grid.now peaks.now) }
{
    let mut members = Map::new(alloc);
    for (link, peak) in peaks {
        let name = grid.link_name(*link).to_string(alloc)?;
        put(&mut members, alloc, name.as_str(), Value::from(*peak))?;
    }
    Ok(Value::Object(members))
}
