ghost use Rattle.std.specs.Prelude.{ℕ, suc, ◌≡◌, ◌+◌, ◌*◌, ◌<◌, ◌≤◌, ◌^◌, true, [], ◌∷◌, ◌++◌, IfOk, IfSome, is_some, length, map, option_map, pred, slice_get};
ghost use Rattle.sys_base.specs.Grid.{cell_count};
ghost use Rattle.sys_base.specs.Held.{word_at};
ghost use Rattle.cell_code.specs.Images.{IsShaped};
ghost use Rattle.cell_code.specs.Marks.{groups_of, has_word, hop_on, hops, link_at, message_of, may_bind, may_forward, may_read, may_write, raised, raised_at};
ghost use Rattle.cell_code.specs.Rows.{State};
ghost use Rattle.array_model.specs.Runs.{words_on};
ghost use Rattle.array_model.specs.States.{ArrayState, opening as first_state};
ghost use Rattle.link_queues.specs.Fabrics.{bound_next, forwarded, opening, oldest, popped, pushed, put_at, slice, without_oldest, words_in};
ghost use Rattle.link_queues.specs.Keeping.{has_free_place, is_live, IsHop, IsKept};
ghost use Rattle.link_queues.specs.Standing.{StandsFor, advanced, written};
ghost use Rattle.link_queues.specs.Tables.{first_link, queues};
ghost use Rattle.link_queues.specs.Tracks.{new_way};
ghost use Rattle.sys_base.specs.Groups.{below};

use crate::link::Link;
use crate::tables::Tables;
use crate::track::Track;
use cell_code::{Group, Image, MessageImage};
use link_slots::Slots;
use std::alloc::Global;
use std::marker::Model;
use sys_base::{Memory, Word};

/// The queues of an array that runs an image. Contracts see them as `queues` (`specs/Fabrics.antt`).
#[derive(Drop)]
pub struct Fabric<'a> {
    image: &'a Image,
    cap: u8,
    tables: Tables,
}

impl<'a> Model for Fabric<'a> {
    ghost use Rattle.link_queues.specs.Tables.{IsFabric, Laid};

    ghost Value = { Laid };

    ghost view = { λ f. record { image = f.image.now; cap = f.cap; table = f.tables } };

    ghost invariant = { λ f. IsFabric f.image.now f.cap f.tables };
}

impl<'a> Fabric<'a> {
    /// All queues are empty, and no group is bound. No later call takes memory.
    pub fn new(alloc: Global, image: &'a Image, cap: u8) -> Result<Fabric<'a>, Memory>
        requires shaped { IsShaped image.now }
        requires some_words { 1 ≤ cap }
        requires most_words { cap ≤ 64 }
        ensures after { IfOk result (λ fabric. queues fabric ≡ opening image.now cap) }
        ensures stands { IfOk result (λ fabric. StandsFor (queues fabric) (first_state image.now)) }
        ensures kept { IfOk result (λ fabric. IsKept (queues fabric)) }
    {
        let tracks = new_tracks(alloc, image.messages.as_slice())?;
        let links = new_links(alloc, image, cap)?;
        Ok(Fabric {
            image,
            cap,
            tables: Tables { tracks, links },
        })
    }

    /// Whether the link may bind its next group.
    pub fn can_bind(&self, link: u16) -> bool
        requires { link < 4 * cell_count self.now.image.grid }
        ensures can { result ≡ may_bind self.now.image (queues self.now).marks (queues self.now).bound link }
        ensures kept { IsKept (queues self.now) }
    {
        let slots = &self.tables.links[usize::from(link)].slots;
        match self.next_group(link) {
            Some(group) => group.members.len() <= usize::from(slots.count() - slots.held()),
            None => false,
        }
    }

    /// Whether a word may be written to the message.
    pub fn can_push(&self, message: u16) -> bool
        requires { message < length self.now.image.messages }
        ensures can { result ≡ may_write self.now.image self.now.cap (queues self.now).marks (queues self.now).bound message }
        ensures kept { IsKept (queues self.now) }
    {
        self.tables.mark(message, 0) < self.length(message) && self.has_room(message, 0)
    }

    /// Whether a word of the message may be read.
    pub fn can_pop(&self, message: u16) -> bool
        requires { message < length self.now.image.messages }
        ensures can { result ≡ may_read self.now.image (queues self.now).marks message }
        ensures kept { IsKept (queues self.now) }
    {
        let hops = self.hops(message);
        self.has_word(message, hops - 1)
    }

    /// Whether a word of the message may move on from the hop.
    pub fn can_forward(&self, message: u16, hop: u16) -> bool
        requires { IsHop self.now.image message hop }
        ensures can { result ≡ may_forward self.now.image self.now.cap (queues self.now).marks (queues self.now).bound message hop }
        ensures kept { IsKept (queues self.now) }
    {
        let hop = usize::from(hop);
        if hop + 1 == self.hops(message) {
            return false;
        }
        self.has_word(message, hop) && self.has_room(message, hop + 1)
    }

    /// The link binds its next group: its members take the lowest free slots, in order.
    pub fn bind(&mut self, link: u16)
        requires link { link < 4 * cell_count self.old.image.grid }
        requires can { may_bind self.old.image (queues self.old).marks (queues self.old).bound link ≡ true }
        ensures after { queues self.new ≡ bound_next (queues self.old) link }
        ensures image { self.new.image ≡ self.old.image }
        ensures cap { self.new.cap ≡ self.old.cap }
        ensures marks { (queues self.new).marks ≡ (queues self.old).marks }
        ensures bound { (queues self.new).bound ≡ raised (queues self.old).bound link }
        ensures slices { (m hop : ℕ) → IsHop self.old.image m hop →
            slice (queues self.new) m hop ≡ slice (queues self.old) m hop }
        ensures stands { (s : ArrayState) → StandsFor (queues self.old) s →
            StandsFor (queues self.new) (record s { bound = raised s.bound link }) }
        ensures kept { IsKept (queues self.new) }
    {
        let group = self.next_group(link).unwrap();
        self.tables.count_group(usize::from(link));
        for message in group.members.as_slice() {
            let hop = hop_on(self.image, *message, link);
            self.tables.settle(*message, hop, usize::from(link));
        }
    }

    /// The word is written to the message.
    pub fn push(&mut self, message: u16, word: Word)
        requires message { message < length self.old.image.messages }
        requires can { may_write self.old.image self.old.cap (queues self.old).marks (queues self.old).bound message ≡ true }
        ensures after { queues self.new ≡ pushed (queues self.old) message word }
        ensures image { self.new.image ≡ self.old.image }
        ensures cap { self.new.cap ≡ self.old.cap }
        ensures marks { (queues self.new).marks ≡ raised_at (queues self.old).marks message 0 }
        ensures bound { (queues self.new).bound ≡ (queues self.old).bound }
        ensures slices { (m hop : ℕ) → IsHop self.old.image m hop → slice (queues self.new) m hop
            ≡ put_at (slice (queues self.old)) message 0 (slice (queues self.old) message 0 ++ word ∷ []) m hop }
        ensures stands { (s : ArrayState) (cell : ℕ → State) → StandsFor (queues self.old) s →
            StandsFor (queues self.new) (written s cell message word) }
        ensures kept { IsKept (queues self.new) }
    {
        let link = self.link_at(message, 0);
        let slot = self.tables.slot(message, 0).unwrap();
        self.tables.raise(message, 0);
        self.tables.push(link, slot, word);
    }

    /// The oldest word of the message is read.
    pub fn pop(&mut self, message: u16) -> Word
        requires message { message < length self.old.image.messages }
        requires can { may_read self.old.image (queues self.old).marks message ≡ true }
        ensures word { result ≡ oldest (queues self.old) message (pred (hops self.old.image message)) }
        ensures read { (s : ArrayState) → StandsFor (queues self.old) s →
            result ≡ word_at s.history message (s.marks message (hops self.old.image message)) }
        ensures after { queues self.new ≡ popped (queues self.old) message }
        ensures image { self.new.image ≡ self.old.image }
        ensures cap { self.new.cap ≡ self.old.cap }
        ensures marks { (queues self.new).marks
            ≡ raised_at (queues self.old).marks message (hops self.old.image message) }
        ensures bound { (queues self.new).bound ≡ (queues self.old).bound }
        ensures slices { (m hop : ℕ) → IsHop self.old.image m hop → slice (queues self.new) m hop
            ≡ without_oldest (queues self.old) message (pred (hops self.old.image message)) m hop }
        ensures stands { (s : ArrayState) (cell : ℕ → State) → StandsFor (queues self.old) s →
            StandsFor (queues self.new) (advanced s cell message (hops self.old.image message)) }
        ensures kept { IsKept (queues self.new) }
    {
        let hop = self.hops(message) - 1;
        let link = self.link_at(message, hop);
        let slot = self.tables.slot(message, hop).unwrap();
        self.tables.leave(message, hop, link, slot)
    }

    /// The oldest word of the hop moves on to the next hop.
    pub fn forward(&mut self, message: u16, hop: u16)
        requires hop { IsHop self.old.image message hop }
        requires can { may_forward self.old.image self.old.cap (queues self.old).marks (queues self.old).bound message hop ≡ true }
        ensures after { queues self.new ≡ forwarded (queues self.old) message hop }
        ensures image { self.new.image ≡ self.old.image }
        ensures cap { self.new.cap ≡ self.old.cap }
        ensures marks { (queues self.new).marks ≡ raised_at (queues self.old).marks message (suc hop) }
        ensures bound { (queues self.new).bound ≡ (queues self.old).bound }
        ensures slices { (m j : ℕ) → IsHop self.old.image m j → slice (queues self.new) m j
            ≡ put_at (without_oldest (queues self.old) message hop) message (suc hop)
            (slice (queues self.old) message (suc hop) ++ oldest (queues self.old) message hop ∷ []) m j }
        ensures stands { (s : ArrayState) → StandsFor (queues self.old) s →
            StandsFor (queues self.new) (record s { marks = raised_at s.marks message (suc hop) }) }
        ensures kept { IsKept (queues self.new) }
    {
        let hop = usize::from(hop);
        let (link, next_link) = (self.link_at(message, hop), self.link_at(message, hop + 1));
        let slot = self.tables.slot(message, hop).unwrap();
        let next_slot = self.tables.slot(message, hop + 1).unwrap();
        let word = self.tables.leave(message, hop, link, slot);
        self.tables.push(next_link, next_slot, word);
    }

    /// How many words the link's queues have.
    pub fn held(&self, link: u16) -> u32
        requires { link < 4 * cell_count self.now.image.grid }
        ensures words { result ≡ words_in (queues self.now) link }
        ensures stands { (s : ArrayState) → StandsFor (queues self.now) s → result ≡ words_on self.now.image link s }
        ensures kept { IsKept (queues self.now) }
    {
        self.tables.links[usize::from(link)].slots.words()
    }

    /// The slot that the message holds at the hop; `None` exactly where it is not live there.
    pub fn slot(&self, message: u16, hop: u16) -> Option<u8>
        requires { IsHop self.now.image message hop }
        ensures slot { result ≡ (queues self.now).places message hop }
        ensures live { is_some result ≡ is_live (queues self.now) message hop }
        ensures kept { IsKept (queues self.now) }
    {
        self.tables.slot(message, usize::from(hop))
    }

    /// How many hops the message has.
    fn hops(&self, message: u16) -> usize
        requires { message < length self.now.image.messages }
        ensures hops { result ≡ hops self.now.image message }
        ensures kept { IsKept (queues self.now) }
    {
        self.image.messages.as_slice()[usize::from(message)]
            .route
            .len()
    }

    /// The length of the message.
    fn length(&self, message: u16) -> u32
        requires { message < length self.now.image.messages }
        ensures { result ≡ (message_of self.now.image message).length }
    {
        self.tables.length(message)
    }

    /// The link at the hop of the message.
    fn link_at(&self, message: u16, hop: usize) -> usize
        requires { IsHop self.now.image message hop }
        ensures { result ≡ link_at self.now.image message hop }
    {
        usize::from(
            self.image.messages.as_slice()[usize::from(message)]
                .route
                .as_slice()[hop],
        )
    }

    /// Whether the message has a word at the hop.
    fn has_word(&self, message: u16, hop: usize) -> bool
        requires { IsHop self.now.image message hop }
        ensures { result ≡ has_word (queues self.now).marks message hop }
    {
        let come = self.tables.mark(message, hop);
        self.tables.mark(message, hop + 1) < come
    }

    /// Whether the message holds a slot at the hop that isn't full.
    fn has_room(&self, message: u16, hop: usize) -> bool
        requires { IsHop self.now.image message hop }
        ensures { result ≡ has_free_place (queues self.now) message hop }
    {
        let come = self.tables.mark(message, hop);
        let waiting = come - self.tables.mark(message, hop + 1);
        self.tables.slot(message, hop).is_some() && waiting < u32::from(self.cap)
    }

    /// The next group of the link; `None` where none is left.
    fn next_group(&self, link: u16) -> Option<&'a Group>
        requires { link < 4 * cell_count self.now.image.grid }
        ensures members { option_map (λ group. group.now.members) result
            ≡ slice_get (groups_of self.now.image link) ((queues self.now).bound link) }
        ensures small { IfSome result (λ _. (queues self.now).bound link + 1 < 2 ^ 64) }
    {
        let link = &self.tables.links[usize::from(link)];
        let entry = link.entry?;
        let groups = self.image.links.as_slice()[entry].groups.as_slice();
        groups.get(link.bound)
    }
}

/// The hop at which the message goes by the link.
fn hop_on(image: &Image, message: u16, link: u16) -> usize
    requires message { message < length image.now.messages }
    requires uses { hop_on image.now link message < hops image.now message }
    ensures { result ≡ hop_on image.now link message }
{
    let route = &image.messages.as_slice()[usize::from(message)].route;
    route.iter().position(|id| *id == link).unwrap()
}

/// The tracks of messages of which no word was written.
fn new_tracks(alloc: Global, messages: &[MessageImage]) -> Result<Vec<Track>, Memory>
    ensures { IfOk result (λ tracks. tracks.items ≡ map (λ m. new_way m.length (length m.route)) messages.now) }
{
    let mut tracks = Vec::with_capacity(alloc, messages.len())?;
    for message in messages {
        let track = Track::new(alloc, message)?;
        tracks.push(track)?;
    }
    Ok(tracks)
}

/// The links of an image, none of whose groups is bound.
fn new_links(alloc: Global, image: &Image, cap: u8) -> Result<Vec<Link>, Memory>
    ensures { IfOk result (λ links. links.items ≡ map (first_link image.now cap) (below (4 * cell_count image.now.grid))) }
{
    let count = 4 * image.grid.cells();
    let mut links = Vec::with_capacity(alloc, usize::from(count))?;
    for link in 0..count {
        let link = new_link(alloc, image, link, cap)?;
        links.push(link)?;
    }
    Ok(links)
}

/// A link of an image, none of whose groups is bound.
fn new_link(alloc: Global, image: &Image, link: u16, cap: u8) -> Result<Link, Memory>
    ensures { IfOk result (λ entry. entry ≡ first_link image.now cap link) }
{
    let entry = image.links.iter().position(|entry| entry.link == link);
    let queues = match entry {
        Some(entry) => image.links.as_slice()[entry].queues,
        None => 0,
    };
    let slots = Slots::new(alloc, queues, cap)?;
    Ok(Link {
        entry,
        bound: 0,
        slots,
    })
}
