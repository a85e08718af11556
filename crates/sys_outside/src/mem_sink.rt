ghost use Rattle.std.specs.Prelude.{◌≡◌, ℕ, ◌≤◌, ◌==◌, List, [], Some, find, IsErrOf, MatchOption};
ghost use Rattle.std.specs.Option.{option_map};
ghost use Rattle.sys_outside.specs.Fault.{Rose};
ghost use Rattle.sys_outside.specs.Sink.{Puts};
ghost use Rattle.sys_outside.specs.Gathered.{Takes, after_call, taken_before_failing};

use crate::sink::{Sink, SinkError};
use std::alloc::Global;
use std::marker::Model;

/// Keeps what it takes. The calls that are listed, counted from 0, take only that many bytes of the piece and fail, and
/// the whole piece where it has fewer. Every call from number 4294967295 on has that number. Of several pairs with one
/// number the first counts.
#[derive(Drop)]
pub struct MemSink {
    taken: Vec<u8>,
    failing: Vec<(u32, usize)>,
    calls: u32,
    faults: u64,
    wants: u64,
}

impl Model for MemSink {
    ghost use Rattle.sys_outside.specs.Gathered.{Gathered};

    ghost Value = { Gathered };

    ghost view = { λ s. record {
      taken = s.taken.items;
      failing = s.failing.items;
      calls = s.calls;
      faults = s.faults;
      wants = s.wants;
    } };
}

impl MemSink {
    /// A sink that took nothing, whose listed calls fail.
    pub fn new(alloc: Global, failing: Vec<(u32, usize)>) -> MemSink
        ensures { result ≡ record { taken = []; failing = failing.items; calls = 0; faults = 0; wants = 0 } }
    {
        MemSink {
            taken: Vec::new(alloc),
            failing,
            calls: 0,
            faults: 0,
            wants: 0,
        }
    }

    /// What was taken.
    pub fn bytes(&self) -> &[u8]
        ensures { result.now ≡ self.now.taken }
    {
        self.taken.as_slice()
    }
}

impl Sink for MemSink {
    ghost taken = { λ s. Some s.taken };

    ghost faults = { λ s. s.faults };

    ghost wants = { λ s. s.wants };

    fn put(&mut self, bytes: &[u8]) -> Result<(), SinkError>
        ensures bytes { Puts (Some self.old.taken) (Some self.new.taken) bytes.now result }
        ensures later { self.old.faults ≤ self.new.faults }
        ensures failed { IsErrOf result SinkError.Failed → Rose self.old.faults self.new.faults }

        // Exactly the listed calls fail, each with the bytes that are listed for it.
        ensures takes { Takes (taken_before_failing self.old) self.old.taken self.new.taken bytes.now result }
        ensures after { self.new ≡ after_call self.old self.new.taken result }
    {
        let call = self.calls;
        self.calls = call.saturating_add(1);
        let put = gather(&mut self.taken, first_of(&self.failing, call), bytes);
        match put {
            Ok(()) => {}
            Err(SinkError::Failed) => self.faults = self.faults.saturating_add(1),
            Err(SinkError::Memory) => self.wants = self.wants.saturating_add(1),
        }
        put
    }
}

// Takes the whole piece, or so many bytes of it and fails.
pub(crate) fn gather(
    taken: &mut Vec<u8>,
    failing: Option<usize>,
    bytes: &[u8],
) -> Result<(), SinkError>
    ensures bytes { Puts (Some taken.old.items) (Some taken.new.items) bytes.now result }
    ensures takes { Takes failing taken.old.items taken.new.items bytes.now result }
{
    match failing {
        None => {
            taken.extend_from_slice(bytes)?;
            Ok(())
        }
        Some(count) => {
            taken.extend_from_slice(&bytes[..count.min(bytes.len())])?;
            Err(SinkError::Failed)
        }
    }
}

// What the first pair of a call's number says.
fn first_of(failing: &[(u32, usize)], call: u32) -> Option<usize>
    ensures { result ≡ option_map (λ failure. failure.1) (find (λ failure. failure.0 == call) failing.now) }
{
    failing
        .iter()
        .find(|(number, _)| *number == call)
        .map(|(_, count)| *count)
}
