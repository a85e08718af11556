//! The reading of schedule files.
ghost use Rattle.std.specs.Prelude.{◌≡◌, ◌^◌, ◌<◌, IfOk, vec_len};
ghost use Rattle.run_words.specs.Answers.{ReadsSchedule, long_schedule, malformed_line};
ghost use Rattle.image_runs.specs.Made.{HasFew, IsShortFile, file_of, reading_of};

use schedules::{ScheduleError, read_schedule};
use std::alloc::{AllocError, Global};
use sys_base::{Actor, Memory, SCHEDULE_BYTES};

/// What a schedule file is read as.
#[derive(Drop)]
pub(crate) enum Reading {
    /// These entries.
    Fits(Vec<Actor>),
    /// This line on what is wrong with the file.
    Breaks(Vec<u8>),
}

/// Reads a schedule file; `None` stands for one that is longer than a schedule may be.
pub(crate) fn read_file(alloc: Global, file: Option<Vec<u8>>) -> Result<Reading, Memory>
    requires { IsShortFile file }
    ensures reads { IfOk result (λ reading. ReadsSchedule (file_of file) (reading_of reading)) }
    ensures few { IfOk result HasFew }
{
    let Some(bytes) = file else {
        return Ok(Reading::Breaks(long_schedule(alloc)?));
    };
    match read_schedule(alloc, &bytes) {
        Ok(entries) => Ok(Reading::Fits(entries)),
        Err(ScheduleError::BadLine { line }) => Ok(Reading::Breaks(malformed_line(alloc, line)?)),
        Err(ScheduleError::Memory) => Err(Memory),
    }
}

/// The line on a schedule that is longer than one may be.
fn long_schedule(alloc: Global) -> Result<Vec<u8>, AllocError>
    ensures { IfOk result (λ line. line.items ≡ long_schedule) }
{
    Ok(format!(in alloc; "schedule: longer than {SCHEDULE_BYTES} bytes\n")?.into_bytes())
}

/// The line on a malformed line.
fn malformed_line(alloc: Global, line: u32) -> Result<Vec<u8>, AllocError>
    ensures { IfOk result (λ text. text.items ≡ malformed_line line) }
{
    Ok(format!(in alloc; "schedule: line {line} is malformed\n")?.into_bytes())
}
