ghost use Rattle.std.specs.Prelude.{◌≡◌, ◌≢◌, ℕ, ◌≤◌, List, Option, None, Err, IsErrOf};
ghost use Rattle.sys_outside.specs.Fault.{Rose};
ghost use Rattle.sys_outside.specs.Sink.{Puts, faults_after_put};

use crate::sink::{Sink, SinkError};
use std::io::Write;
use std::marker::Model;

/// Standard output, standard error or another writer. It tells no bytes. Its count rises at each error, and where a
/// write takes nothing: each fails the put, which writes no more, and no put wants memory.
#[derive(Drop)]
pub struct StreamSink<W: Write + Drop> {
    inner: W,
    faults: u64,
}

impl<W: Write + Drop> Model for StreamSink<W> {
    ghost use Rattle.std.specs.Prelude.{ℕ};

    ghost Value = { W × ℕ };

    ghost view = { λ s. (s.inner, s.faults) };
}

impl<W: Write + Drop> StreamSink<W> {
    /// A sink that writes here.
    pub fn new(inner: W) -> StreamSink<W>
        ensures { result ≡ (inner, 0) }
    {
        StreamSink { inner, faults: 0 }
    }
}

impl<W: Write + Drop> Sink for StreamSink<W> {
    ghost taken = { λ _. None };

    ghost faults = { λ s. s.1 };

    ghost wants = { λ _. 0 };

    fn put(&mut self, bytes: &[u8]) -> Result<(), SinkError>
        ensures bytes { Puts None None bytes.now result }
        ensures later { self.old.1 ≤ self.new.1 }
        ensures failed { IsErrOf result SinkError.Failed → Rose self.old.1 self.new.1 }
        ensures counts { self.new.1 ≡ faults_after_put self.old.1 result }
        ensures memory { result ≢ Err SinkError.Memory }

        // The writer has all of the bytes, or the first of them where the put failed.
        ensures writes { Puts (W.contents self.old.0) (W.contents self.new.0) bytes.now result }
    {
        let written = write_whole(&mut self.inner, bytes);
        if written.is_err() {
            self.faults = self.faults.saturating_add(1);
        }
        written
    }
}

// Writes all of the bytes. It stops at the first write that fails or takes nothing, and flushes after the last one.
fn write_whole<W: Write>(writer: &mut W, bytes: &[u8]) -> Result<(), SinkError>
    ensures memory { result ≢ Err SinkError.Memory }
    ensures writes { Puts (W.contents writer.old) (W.contents writer.new) bytes.now result }
{
    let mut rest = bytes;
    // Each turn takes a byte at least, or is the last.
    for _ in 0..bytes.len() {
        if rest.is_empty() {
            break;
        }
        match writer.write(rest) {
            Ok(0) => return Err(SinkError::Failed),
            Ok(count) => rest = &rest[count..],
            Err(_) => return Err(SinkError::Failed),
        }
    }
    match writer.flush() {
        Ok(()) => Ok(()),
        Err(_) => Err(SinkError::Failed),
    }
}
