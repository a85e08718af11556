ghost use Rattle.std.specs.Prelude.{◌≡◌, ◌+◌, ◌<◌, ◌≤◌, [], ◌∷◌, ◌++◌, length, IfOk};

use std::alloc::Global;
use std::marker::Model;
use sys_base::{Actor, Memory};

/// The recorded actors of a run, in order, with room for those to come.
#[derive(Drop)]
pub struct Trail {
    entries: Vec<Actor>,
    room: u32,
}

impl Model for Trail {
    ghost use Rattle.array_drive.specs.Driving.{Recorded};

    ghost Value = { Recorded };

    ghost view = { λ t. record { entries = t.entries.items; room = t.room } };

    ghost use Rattle.std.specs.Prelude.{◌+◌, ◌≤◌, length};
    ghost use Rattle.std.specs.Vec.{vec_capacity};

    ghost invariant = { λ t. length t.entries.items + t.room ≤ vec_capacity t.entries };
}

impl Trail {
    /// A trail with no entries, and with room for so many. It takes all memory of the trail.
    pub fn new(alloc: Global, room: u32) -> Result<Trail, Memory>
        ensures entries { IfOk result (λ trail. trail.entries ≡ []) }
        ensures room { IfOk result (λ trail. trail.room ≡ room) }
    {
        let entries = Vec::with_capacity(alloc, room as usize)?;
        Ok(Trail { entries, room })
    }

    /// The recorded actors.
    pub fn entries(&self) -> &[Actor]
        ensures { result.now ≡ self.now.entries }
    {
        self.entries.as_slice()
    }

    /// Records an actor, in the room that there is.
    pub(crate) fn add(&mut self, actor: Actor)
        requires { 0 < self.old.room }
        ensures entries { self.new.entries ≡ self.old.entries ++ actor ∷ [] }
        ensures room { self.new.room + 1 ≡ self.old.room }
    {
        let _ = self.entries.push(actor);
        self.room -= 1;
    }
}
