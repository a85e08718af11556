ghost use Rattle.std.specs.Prelude.{◌≡◌, ◌+◌, ◌<◌, ◌^◌, IfOk, None, length, replicate, slice_get, slice_index_or, slice_set, Some};
ghost use Rattle.link_queues.specs.Tracks.{mark_at, new_way, place_at};

use cell_code::MessageImage;
use std::alloc::Global;
use std::marker::Model;
use sys_base::Memory;

/// How far the words of a message have come, and the slots that it holds.
#[derive(Drop)]
pub(crate) struct Track {
    length: u32,
    /// How many words were written, how many have come to each hop from 1 on, and how many were read.
    marks: Vec<u32>,
    /// The slot at each hop, where the message is live.
    slots: Vec<Option<u8>>,
}

impl Model for Track {
    ghost use Rattle.std.specs.Prelude.{◌<◌, ◌^◌};
    ghost use Rattle.link_queues.specs.Tracks.{Way};

    ghost Value = { Way };

    ghost view = { λ t. record { length = t.length; marks = t.marks.items; places = t.slots.items } };

    ghost invariant = { λ t. t.length < 2 ^ 32 };
}

impl Track {
    /// No word was written, and no slot is held.
    pub(crate) fn new(alloc: Global, message: &MessageImage) -> Result<Track, Memory>
        ensures { IfOk result (λ track. track ≡ new_way message.now.length (length message.now.route)) }
    {
        let length = message.length;
        let hops = message.route.as_slice().len();
        Ok(Track {
            length,
            marks: vec![in alloc; 0; hops + 1]?,
            slots: vec![in alloc; None; hops]?,
        })
    }

    /// How many words have come to a hop.
    pub(crate) fn mark(&self, hop: usize) -> u32
        requires { hop < length self.now.marks }
        ensures mark { result ≡ mark_at self.now hop }
        ensures small { hop + 1 < 2 ^ 64 }
    {
        self.marks[hop]
    }

    /// The length of the message.
    pub(crate) fn length(&self) -> u32
        ensures { result ≡ self.now.length }
    {
        self.length
    }

    /// The slot at a hop.
    pub(crate) fn slot(&self, hop: usize) -> Option<u8>
        requires { hop < length self.now.places }
        ensures { result ≡ place_at self.now hop }
    {
        self.slots[hop]
    }

    /// One more word has come to a hop.
    pub(crate) fn raise(&mut self, hop: usize)
        requires inside { hop < length self.old.marks }
        requires left { mark_at self.old hop < self.old.length }
        ensures { self.new ≡ record self.old { marks = slice_set self.old.marks hop (mark_at self.old hop + 1) } }
    {
        self.marks[hop] += 1;
    }

    /// The message has another slot at a hop, or none.
    pub(crate) fn set_slot(&mut self, hop: usize, slot: Option<u8>)
        requires { hop < length self.old.places }
        ensures { self.new ≡ record self.old { places = slice_set self.old.places hop slot } }
    {
        self.slots[hop] = slot;
    }
}
