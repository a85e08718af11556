ghost use Rattle.std.specs.Prelude.{◌≡◌, ◌*◌, ◌<◌, ◌≤◌, suc, max, true, false, ℕ, Option, length, is_some, IfOk, replicate, slice_index, slice_set};
ghost use Rattle.cell_code.specs.Images.{IsShaped};
ghost use Rattle.cell_code.specs.Marks.{hops, link_at, may_bind, may_forward};
ghost use Rattle.array_model.specs.States.{cells, opening};
ghost use Rattle.link_queues.specs.Standing.{StandsFor};
ghost use Rattle.link_queues.specs.Tables.{queues};
ghost use Rattle.array_sim.specs.bodies.Wiring.{HasBound, HasGiven, HasMoved, HasWritten, IsWired, can_read, first_in, room_in};

use cell_code::Image;
use cell_machine::Port;
use link_queues::Fabric;
use std::alloc::Global;
use std::marker::Model;
use sys_base::{Memory, Word};

/// The queues of an array, and the peak of each link: the most words that its queues have had together.
#[derive(Drop)]
pub(crate) struct Wires<'a> {
    image: &'a Image,
    fabric: Fabric<'a>,
    peaks: Vec<u32>,
}

impl<'a> Model for Wires<'a> {
    ghost use Rattle.array_sim.specs.bodies.Wiring.{IsWired, Wired};

    ghost Value = { Wired };

    ghost view = { λ w. record { fabric = w.fabric; peaks = w.peaks.items } };

    ghost invariant = { λ w. IsWired w.image.now (record { fabric = w.fabric; peaks = w.peaks.items }) };
}

impl<'a> Wires<'a> {
    /// All queues are empty, no group is bound, and each peak is 0.
    pub(crate) fn new(alloc: Global, image: &'a Image, cap: u8) -> Result<Wires<'a>, Memory>
        requires shaped { IsShaped image.now }
        requires some_words { 1 ≤ cap }
        requires most_words { cap ≤ 64 }
        ensures wired { IfOk result (IsWired image.now) }
        ensures cap { IfOk result (λ w. w.fabric.cap ≡ cap) }
        ensures stands { IfOk result (λ w. StandsFor (queues w.fabric) (opening image.now)) }
        ensures peaks { IfOk result (λ w. (l : ℕ) → slice_index w.peaks l ≡ 0) }
    {
        let fabric = Fabric::new(alloc, image, cap)?;
        let peaks = zeros(alloc, 4 * usize::from(image.grid.cells()))?;
        Ok(Wires {
            image,
            fabric,
            peaks,
        })
    }

    /// Whether the number is a message to which a word may be written.
    pub(crate) fn can_write(&self, message: u16) -> bool
        ensures { result ≡ room_in self.now message }
    {
        usize::from(message) < self.image.messages.len() && self.fabric.can_push(message)
    }

    /// Whether the number is a message of which a word may be read.
    pub(crate) fn can_read(&self, message: u16) -> bool
        ensures { result ≡ can_read self.now message }
    {
        usize::from(message) < self.image.messages.len() && self.fabric.can_pop(message)
    }

    /// Whether a word of the message may move on from the hop.
    pub(crate) fn can_forward(&self, message: u16, hop: u16) -> bool
        ensures { result ≡ may_forward self.now.fabric.image self.now.fabric.cap (queues self.now.fabric).marks
            (queues self.now.fabric).bound message hop }
    {
        match self.image.messages.get(usize::from(message)) {
            Some(entry) => {
                usize::from(hop) < entry.route.len() && self.fabric.can_forward(message, hop)
            }
            None => false,
        }
    }

    /// Whether the link may bind its next group.
    pub(crate) fn can_bind(&self, link: u16) -> bool
        ensures { result ≡ may_bind self.now.fabric.image (queues self.now.fabric).marks
            (queues self.now.fabric).bound link }
    {
        usize::from(link) < self.peaks.len() && self.fabric.can_bind(link)
    }

    /// A word of the message moves on from the hop, if one may: whether it may.
    pub(crate) fn forward(&mut self, message: u16, hop: u16) -> bool
        ensures answer { result ≡ may_forward self.old.fabric.image self.old.fabric.cap (queues self.old.fabric).marks
            (queues self.old.fabric).bound message hop }
        ensures moved { result ≡ true → HasMoved self.old message (suc hop) self.new }
        ensures refused { result ≡ false → self.new ≡ self.old }
    {
        if !self.can_forward(message, hop) {
            return false;
        }
        let link = link_at(self.image, message, usize::from(hop) + 1);
        self.fabric.forward(message, hop);
        raise(&mut self.peaks, link, self.fabric.held(link));
        true
    }

    /// The link binds its next group, if it may: whether it may.
    pub(crate) fn bind(&mut self, link: u16) -> bool
        ensures answer { result ≡ may_bind self.old.fabric.image (queues self.old.fabric).marks
            (queues self.old.fabric).bound link }
        ensures bound { result ≡ true → HasBound self.old link self.new }
        ensures refused { result ≡ false → self.new ≡ self.old }
    {
        if !self.can_bind(link) {
            return false;
        }
        self.fabric.bind(link);
        true
    }

    /// The peak of a link.
    pub(crate) fn peak(&self, link: u16) -> u32
        requires { link < length self.now.peaks }
        ensures { result ≡ slice_index self.now.peaks link }
    {
        self.peaks[usize::from(link)]
    }
}

impl<'a> Port for Wires<'a> {
    ghost room = { room_in };

    ghost first = { first_in };

    ghost wrote = { HasWritten };

    ghost gave = { HasGiven };

    fn write(&mut self, message: u16, word: Word) -> bool {
        if !self.can_write(message) {
            return false;
        }
        let link = link_at(self.image, message, 0);
        self.fabric.push(message, word);
        raise(&mut self.peaks, link, self.fabric.held(link));
        true
    }

    fn read(&mut self, message: u16) -> Option<Word> {
        if !self.can_read(message) {
            return None;
        }
        Some(self.fabric.pop(message))
    }
}

/// So many zeros.
fn zeros(alloc: Global, count: usize) -> Result<Vec<u32>, Memory>
    ensures { IfOk result (λ numbers. numbers.items ≡ replicate count 0) }
{
    Ok(vec![in alloc; 0; count]?)
}

/// The link at a hop of a message.
fn link_at(image: &Image, message: u16, hop: usize) -> u16
    requires message { message < length image.now.messages }
    requires hop { hop < hops image.now message }
    ensures { result ≡ link_at image.now message hop }
{
    image.messages.as_slice()[usize::from(message)]
        .route
        .as_slice()[hop]
}

/// The peak of a link becomes the number of its words, where that is more.
fn raise(peaks: &mut Vec<u32>, link: u16, words: u32)
    requires { link < length peaks.old.items }
    ensures { peaks.new.items ≡ slice_set peaks.old.items link (max (slice_index peaks.old.items link) words) }
{
    let peak = &mut peaks[usize::from(link)];
    *peak = words.max(*peak);
}
