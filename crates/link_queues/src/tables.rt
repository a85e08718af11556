ghost use Rattle.std.specs.Prelude.{◌≡◌, ◌+◌, ◌<◌, ◌≢◌, ◌^◌, IfOk, None, Some, if◌then◌else◌, length, slice_get, slice_set};
ghost use Rattle.link_slots.specs.Slots.{added, freed, held_count, lowest_free, taken, taken_from, words_at, HasRoom, IsHeld};
ghost use Rattle.link_queues.specs.Tables.{link_of, mark_in, place_in, seat_in, way_of, with_bound, with_left, with_place, with_raised, with_slots};

use crate::link::Link;
use crate::track::Track;
use std::marker::Model;
use sys_base::Word;

/// The tables of an array's queues: the track of each message, by its index, and each link, by its id.
#[derive(Drop)]
pub(crate) struct Tables {
    pub tracks: Vec<Track>,
    pub links: Vec<Link>,
}

impl Model for Tables {
    ghost use Rattle.link_queues.specs.Tables.{Table};

    ghost Value = { Table };

    ghost view = { λ t. record { ways = t.tracks.items; links = t.links.items } };
}

impl Tables {
    /// The length of a message.
    pub(crate) fn length(&self, message: u16) -> u32
        requires { message < length self.now.ways }
        ensures { result ≡ (way_of self.now message).length }
    {
        self.tracks[usize::from(message)].length()
    }

    /// How many words of a message have come to a hop.
    pub(crate) fn mark(&self, message: u16, hop: usize) -> u32
        requires message { message < length self.now.ways }
        requires hop { hop < length (way_of self.now message).marks }
        ensures mark { result ≡ mark_in self.now message hop }
        ensures small { hop + 1 < 2 ^ 64 }
    {
        self.tracks[usize::from(message)].mark(hop)
    }

    /// The slot of a message at a hop.
    pub(crate) fn slot(&self, message: u16, hop: usize) -> Option<u8>
        requires message { message < length self.now.ways }
        requires hop { hop < length (way_of self.now message).places }
        ensures { result ≡ place_in self.now message hop }
    {
        self.tracks[usize::from(message)].slot(hop)
    }

    /// One more word of a message has come to a hop.
    pub(crate) fn raise(&mut self, message: u16, hop: usize)
        requires message { message < length self.old.ways }
        requires hop { hop < length (way_of self.old message).marks }
        requires left { mark_in self.old message hop < (way_of self.old message).length }
        ensures { self.new ≡ with_raised self.old message hop }
    {
        self.tracks[usize::from(message)].raise(hop);
    }

    /// The message has another slot at a hop, or none.
    fn set_slot(&mut self, message: u16, hop: usize, slot: Option<u8>)
        requires message { message < length self.old.ways }
        requires hop { hop < length (way_of self.old message).places }
        ensures { self.new ≡ with_place self.old message hop slot }
    {
        self.tracks[usize::from(message)].set_slot(hop, slot);
    }

    /// A word comes to a slot of a link.
    pub(crate) fn push(&mut self, link: usize, slot: u8, word: Word)
        requires link { link < length self.old.links }
        requires room { HasRoom (link_of self.old link).slots slot }
        ensures { self.new ≡ with_slots self.old link (added (link_of self.old link).slots slot word) }
    {
        self.links[link].slots.push(slot, word);
    }

    /// The oldest word leaves a slot of a link.
    fn pop(&mut self, link: usize, slot: u8) -> Word
        requires link { link < length self.old.links }
        requires some { 0 < length (words_at (link_of self.old link).slots slot) }
        ensures word { slice_get (words_at (link_of self.old link).slots slot) 0 ≡ Some result }
        ensures after { self.new ≡ with_slots self.old link (taken_from (link_of self.old link).slots slot) }
    {
        self.links[link].slots.pop(slot)
    }

    /// The oldest word of a message leaves its slot at a hop for the next hop; the message gives the slot back with its
    /// last word.
    pub(crate) fn leave(&mut self, message: u16, hop: usize, link: usize, slot: u8) -> Word
        requires message { message < length self.old.ways }
        requires hop { hop < length (way_of self.old message).places }
        requires next { hop + 1 < length (way_of self.old message).marks }
        requires small { hop + 1 < 2 ^ 64 }
        requires left { mark_in self.old message (hop + 1) < (way_of self.old message).length }
        requires link { link < length self.old.links }
        requires held { IsHeld (link_of self.old link).slots slot }
        requires some { 0 < length (words_at (link_of self.old link).slots slot) }
        ensures word { slice_get (words_at (link_of self.old link).slots slot) 0 ≡ Some result }
        ensures after { self.new ≡ with_left self.old message hop link slot }
    {
        self.raise(message, hop + 1);
        let word = self.pop(link, slot);
        if self.mark(message, hop + 1) == self.length(message) {
            self.release(message, hop, link, slot);
        }
        word
    }

    /// The message gives back its slot at a hop.
    fn release(&mut self, message: u16, hop: usize, link: usize, slot: u8)
        requires message { message < length self.old.ways }
        requires hop { hop < length (way_of self.old message).places }
        requires link { link < length self.old.links }
        requires held { IsHeld (link_of self.old link).slots slot }
        ensures { self.new ≡ with_slots (with_place self.old message hop None) link
            (freed (link_of self.old link).slots slot) }
    {
        self.set_slot(message, hop, None);
        self.links[link].slots.give_back(slot);
    }

    /// The message takes the lowest free slot of the link for a hop.
    pub(crate) fn settle(&mut self, message: u16, hop: usize, link: usize)
        requires message { message < length self.old.ways }
        requires hop { hop < length (way_of self.old message).places }
        requires link { link < length self.old.links }
        requires free { held_count (link_of self.old link).slots < length (link_of self.old link).slots }
        ensures { self.new ≡ with_slots
            (with_place self.old message hop (Some (lowest_free (link_of self.old link).slots))) link
            (taken (link_of self.old link).slots message) }
    {
        let slot = self.links[link].slots.take(message);
        self.set_slot(message, hop, Some(slot));
    }

    /// One more group of the link is bound.
    pub(crate) fn count_group(&mut self, link: usize)
        requires link { link < length self.old.links }
        requires small { (link_of self.old link).bound + 1 < 2 ^ 64 }
        ensures { self.new ≡ with_bound self.old link ((link_of self.old link).bound + 1) }
    {
        self.links[link].bound += 1;
    }
}
