ghost use Rattle.std.specs.Prelude.{◌≡◌, ◌≢◌, ℕ, ◌++◌, ◌≤◌, List, [], Some, is_ok, if◌then◌else◌};
ghost use Rattle.sys_outside.specs.Sink.{Puts, wants_after_put};

use crate::mem_sink::gather;
use crate::sink::{Sink, SinkError};
use std::alloc::Global;
use std::marker::Model;

/// Keeps what it takes. No call fails.
#[derive(Drop)]
pub struct SureSink {
    taken: Vec<u8>,
    wants: u64,
}

impl Model for SureSink {
    ghost use Rattle.std.specs.Prelude.{ℕ, List};

    ghost Value = { List ℕ × ℕ };

    ghost view = { λ s. (s.taken.items, s.wants) };
}

impl SureSink {
    /// A sink that took nothing.
    pub fn new(alloc: Global) -> SureSink
        ensures { result ≡ ([], 0) }
    {
        SureSink {
            taken: Vec::new(alloc),
            wants: 0,
        }
    }

    /// What was taken.
    pub fn bytes(&self) -> &[u8]
        ensures { result.now ≡ self.now.0 }
    {
        self.taken.as_slice()
    }
}

impl Sink for SureSink {
    ghost taken = { λ s. Some s.0 };

    ghost faults = { λ _. 0 };

    ghost wants = { λ s. s.1 };

    fn put(&mut self, bytes: &[u8]) -> Result<(), SinkError>
        ensures bytes { Puts (Some self.old.0) (Some self.new.0) bytes.now result }
        ensures sure { result ≢ Err SinkError.Failed }
        ensures wants { self.new.1 ≡ wants_after_put self.old.1 result }
    {
        let put = gather(&mut self.taken, None, bytes);
        if put.is_err() {
            self.wants = self.wants.saturating_add(1);
        }
        put
    }
}
