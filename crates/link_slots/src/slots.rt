ghost use Rattle.std.specs.Prelude.{◌≡◌, ◌<◌, ◌≤◌, IfOk, Some, length, position, replicate, is_none, slice_get};
ghost use Rattle.link_slots.specs.Slots.{added, empty_slot, freed, held_count, IsHeld, lowest_free, taken, taken_from, word_count, words_at, HasRoom, IsSlots};

use crate::slot::Slot;
use circular_buffer::HeapCircularBuffer;
use std::alloc::Global;
use std::marker::Model;
use sys_base::{Memory, Word};

/// The slots of a link, from 0 on. Contracts see them as a list.
///
/// There are at most 255 slots of at most 255 words each. A message takes a slot, and gives it back. All memory is
/// taken at the start.
#[derive(Drop)]
pub struct Slots {
    slots: Vec<Slot>,
    held: u8,
    words: u32,
}

impl Model for Slots {
    ghost use Rattle.std.specs.Prelude.{◌≡◌, List};
    ghost use Rattle.link_slots.specs.declared.slot.Slot.{Slot};
    ghost use Rattle.link_slots.specs.Slots.{held_count, word_count, IsCounted};

    ghost Value = { List Slot };

    ghost view = { λ s. s.slots.items };

    ghost invariant = { λ s. IsCounted s.slots.items s.held s.words };
}

impl Slots {
    /// So many free slots, each for so many words.
    pub fn new(alloc: Global, count: u8, capacity: u8) -> Result<Slots, Memory>
        ensures { IfOk result (λ slots. slots ≡ replicate count (empty_slot capacity)) }
    {
        let mut slots = Vec::with_capacity(alloc, usize::from(count))?;
        for _ in 0..count {
            let words = HeapCircularBuffer::with_capacity(alloc, usize::from(capacity))?;
            slots.push(Slot {
                holder: None,
                words,
            })?;
        }
        Ok(Slots {
            slots,
            held: 0,
            words: 0,
        })
    }

    /// How many slots there are.
    pub fn count(&self) -> u8
        ensures count { result ≡ length self.now }
        ensures kept { IsSlots self.now }
    {
        self.slots.len() as u8
    }

    /// How many slots are held.
    pub fn held(&self) -> u8
        ensures held { result ≡ held_count self.now }
        ensures kept { IsSlots self.now }
    {
        self.held
    }

    /// How many words all slots have.
    pub fn words(&self) -> u32
        ensures { result ≡ word_count self.now }
    {
        self.words
    }

    /// The message takes the lowest free slot: which one that is.
    pub fn take(&mut self, message: u16) -> u8
        requires free { held_count self.old < length self.old }
        ensures slot { result ≡ lowest_free self.old }
        ensures after { self.new ≡ taken self.old message }
    {
        let slot = self.first_free().unwrap();
        self.slots[slot].holder = Some(message);
        self.held += 1;
        slot as u8
    }

    /// The first free slot; `None` where none is free.
    fn first_free(&self) -> Option<usize>
        ensures { result ≡ position (λ s. is_none s.holder) self.now }
    {
        self.slots.iter().position(|slot| slot.holder.is_none())
    }

    /// The slot is given back. It keeps its words, of which its holder leaves none.
    pub fn give_back(&mut self, slot: u8)
        requires held { IsHeld self.old slot }
        ensures { self.new ≡ freed self.old slot }
    {
        self.slots[usize::from(slot)].holder = None;
        self.held -= 1;
    }

    /// A word comes to a slot that is not full.
    pub fn push(&mut self, slot: u8, word: Word)
        requires { HasRoom self.old slot }
        ensures { self.new ≡ added self.old slot word }
    {
        self.slots[usize::from(slot)].words.push_back(word);
        self.words += 1;
    }

    /// The oldest word leaves a slot that is not empty.
    pub fn pop(&mut self, slot: u8) -> Word
        requires { 0 < length (words_at self.old slot) }
        ensures word { slice_get (words_at self.old slot) 0 ≡ Some result }
        ensures after { self.new ≡ taken_from self.old slot }
    {
        let word = self.slots[usize::from(slot)].words.pop_front().unwrap();
        self.words -= 1;
        word
    }
}
