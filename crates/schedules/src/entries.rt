ghost use Rattle.std.specs.Prelude.{◌≡◌, ◌≢◌, ◌^◌, ◌<◌, ◌≤◌, ◌+◌, ◌∷◌, ◌++◌, ℕ, List, length, codes, All, slice_index, IfOk, IfErr, OnOk, string_bytes};
ghost use Rattle.sys_base.specs.Actors.{actor_text};
ghost use Rattle.schedules.specs.Entries.{HasEntries, IsShort, Refuses, entry_lines, lines, passed_over, schedule_text};

use crate::error::ScheduleError;
use crate::line::{entry_of, place_of};
use std::alloc::Global;
use sys_base::{Actor, Memory};

/// The entries of a schedule's text, or its first malformed line (`specs/Entries.antt`). A first line that begins with
/// `{` is passed over.
pub fn read_schedule(alloc: Global, bytes: &[u8]) -> Result<Vec<Actor>, ScheduleError>
    requires { length bytes.now < 2 ^ 32 }
    ensures entries { IfOk result (λ entries. HasEntries bytes.now entries.items) }
    ensures refused { IfErr result (Refuses bytes.now) }
{
    let (passed, mut rest) = behind_result(bytes);
    let mut entries = Vec::new(alloc);
    'lines: while !rest.is_empty() {
        let (line, behind) = split_line(rest);
        let Some(entry) = entry_of(line) else {
            let line = passed + entries.len() as u32 + 1;
            return Err(ScheduleError::BadLine { line });
        };
        entries.push(entry)?;
        rest = behind;
    }
    Ok(entries)
}

/// How many lines are passed over, and the bytes behind them.
fn behind_result(bytes: &[u8]) -> (u32, &[u8])
    ensures passed { result.0 ≡ passed_over bytes.now }
    ensures lines { lines result.1.now ≡ entry_lines bytes.now }
    ensures shorter { result.0 + length result.1.now ≤ length bytes.now }
{
    match bytes {
        [b'{', ..] => (1, split_line(bytes).1),
        _ => (0, bytes),
    }
}

/// The first line of some bytes, and the bytes behind its newline.
fn split_line(bytes: &[u8]) -> (&[u8], &[u8])
    requires { 0 < length bytes.now }
    ensures lines { lines bytes.now ≡ result.0.now ∷ lines result.1.now }
    ensures shorter { length result.1.now < length bytes.now }
{
    match place_of(b'\n', bytes) {
        Some(end) => (&bytes[..end], &bytes[end + 1..]),
        None => (bytes, &[]),
    }
}

/// The text of a schedule: each entry on a line of its own. It reads back as these entries, also behind a line that
/// begins with `{`.
pub fn write_schedule(alloc: Global, entries: &[Actor]) -> Result<Vec<u8>, Memory>
    ensures text { IfOk result (λ text. text.items ≡ schedule_text entries.now) }
    ensures read_back { IfOk result (λ text. HasEntries text.items entries.now) }
    ensures behind_result { IfOk result (λ text. (line : List ℕ) → slice_index line 0 ≡ 123 → All (λ b. b ≢ 10) line
        → HasEntries (line ++ codes "\n" ++ text.items) entries.now) }
{
    let mut text = String::new(alloc);
    for entry in entries {
        write_entry(&mut text, *entry)?;
    }
    Ok(text.into_bytes())
}

/// Writes an entry and a newline.
fn write_entry(text: &mut String, entry: Actor) -> Result<(), Memory>
    ensures text { OnOk result (string_bytes text.new ≡ string_bytes text.old ++ (actor_text entry ++ codes "\n")) }
    ensures short { IsShort entry }
{
    writeln!(text, "{entry}")?;
    Ok(())
}
