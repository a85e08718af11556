//! Calls of the queues of an array, each with what it is to answer.
ghost use Rattle.std.specs.Prelude.{◌≡◌, ◌*◌, ◌<◌, ◌&&◌, nat_lt, length};
ghost use Rattle.sys_base.specs.Grid.{cell_count};
ghost use Rattle.cell_code.specs.Marks.{hops};
ghost use Rattle.link_queues.specs.Keeping.{IsHop};

use cell_code::Image;
use link_queues::Fabric;
use sys_base::Word;

/// A call, and what it is to answer.
#[derive(Clone, Copy)]
pub enum Call {
    CanBind(u16, bool),
    CanPush(u16, bool),
    CanPop(u16, bool),
    CanForward(u16, u16, bool),
    Slot(u16, u16, Option<u8>),
    Held(u16, u32),
    Bind(u16),
    Push(u16, Word),
    Pop(u16, Word),
    Forward(u16, u16),
}

/// Makes some calls, while each answers what it is to answer: whether all did.
pub fn all_answer(fabric: &mut Fabric, image: &Image, calls: &[Call]) -> bool
    requires { fabric.old.image ≡ image.now }
{
    for call in calls {
        if !answers(fabric, image, *call) {
            return false;
        }
    }
    true
}

/// Whether the call can be made, and answers what it is to answer.
fn answers(fabric: &mut Fabric, image: &Image, call: Call) -> bool
    requires { fabric.old.image ≡ image.now }
    ensures { fabric.new.image ≡ image.now }
{
    match call {
        Call::CanBind(link, want) => is_link(image, link) && fabric.can_bind(link) == want,
        Call::CanPush(message, want) => {
            is_message(image, message) && fabric.can_push(message) == want
        }
        Call::CanPop(message, want) => {
            is_message(image, message) && fabric.can_pop(message) == want
        }
        Call::CanForward(message, hop, want) => {
            is_hop(image, message, hop) && fabric.can_forward(message, hop) == want
        }
        Call::Slot(message, hop, want) => {
            is_hop(image, message, hop) && fabric.slot(message, hop) == want
        }
        Call::Held(link, want) => is_link(image, link) && fabric.held(link) == want,
        Call::Bind(link) => is_link(image, link) && bind(fabric, link),
        Call::Push(message, word) => is_message(image, message) && push(fabric, message, word),
        Call::Pop(message, word) => is_message(image, message) && pop(fabric, message, word),
        Call::Forward(message, hop) => is_hop(image, message, hop) && forward(fabric, message, hop),
    }
}

/// Binds the next group of the link, if it may be bound: whether it was.
fn bind(fabric: &mut Fabric, link: u16) -> bool
    requires { link < 4 * cell_count fabric.old.image.grid }
    ensures { fabric.new.image ≡ fabric.old.image }
{
    if !fabric.can_bind(link) {
        return false;
    }
    fabric.bind(link);
    true
}

/// Writes a word to the message, if one may be written: whether it was.
fn push(fabric: &mut Fabric, message: u16, word: Word) -> bool
    requires { message < length fabric.old.image.messages }
    ensures { fabric.new.image ≡ fabric.old.image }
{
    if !fabric.can_push(message) {
        return false;
    }
    fabric.push(message, word);
    true
}

/// Reads a word of the message, if one may be read: whether it is the word that is wanted.
fn pop(fabric: &mut Fabric, message: u16, want: Word) -> bool
    requires { message < length fabric.old.image.messages }
    ensures { fabric.new.image ≡ fabric.old.image }
{
    if !fabric.can_pop(message) {
        return false;
    }
    fabric.pop(message) == want
}

/// Lets a word move on from the hop, if one may: whether it did.
fn forward(fabric: &mut Fabric, message: u16, hop: u16) -> bool
    requires { IsHop fabric.old.image message hop }
    ensures { fabric.new.image ≡ fabric.old.image }
{
    if !fabric.can_forward(message, hop) {
        return false;
    }
    fabric.forward(message, hop);
    true
}

/// Whether the grid of the image has the link.
fn is_link(image: &Image, link: u16) -> bool
    ensures { result ≡ nat_lt link (4 * cell_count image.now.grid) }
{
    link < 4 * image.grid.cells()
}

/// Whether the image has the message.
fn is_message(image: &Image, message: u16) -> bool
    ensures { result ≡ nat_lt message (length image.now.messages) }
{
    usize::from(message) < image.messages.as_slice().len()
}

/// Whether the image has the message, and the message the hop.
fn is_hop(image: &Image, message: u16, hop: u16) -> bool
    ensures { result ≡ (nat_lt message (length image.now.messages) && nat_lt hop (hops image.now message)) }
{
    is_message(image, message) && usize::from(hop) < hops(image, message)
}

/// How many hops the message has.
fn hops(image: &Image, message: u16) -> usize
    requires { message < length image.now.messages }
    ensures { result ≡ hops image.now message }
{
    image.messages.as_slice()[usize::from(message)].route.len()
}
