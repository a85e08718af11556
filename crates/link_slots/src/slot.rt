use circular_buffer::HeapCircularBuffer;
use sys_base::Word;

/// A queue of a link: the message that holds it, if one does, and its words, the oldest one first.
#[derive(Drop)]
pub struct Slot {
    pub holder: Option<u16>,
    pub words: HeapCircularBuffer<Word>,
}
