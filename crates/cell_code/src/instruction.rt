use sys_base::Op;

/// An instruction of a cell. What a step of each does is its row (`specs/Rows.antt`). Variables and arrays are named
/// by their offsets, messages by their indices, counters by how many loops stand around theirs, and targets are
/// addresses of the code.
#[derive(Clone, Copy, Debug, PartialEq, Eq)]
pub enum Instr {
    /// Pushes the number.
    Push(i64),
    /// Pushes the word of a variable.
    Load(u16),
    /// Pops an index, and pushes that element of the array that has `len` words from `base` on, or a fault.
    LoadAt { base: u16, len: u16, line: u32 },
    /// Pushes the value of a counter.
    Counter(u8),
    /// Pops a word, and pushes it with the other sign.
    Neg { line: u32 },
    /// Pops the right operand and then the left one, and pushes what the operator gives.
    Bin { op: Op, line: u32 },
    /// Pops a word into a variable.
    Store(u16),
    /// Pops a value and then an index, and stores the value in that element, or breaks the cell.
    StoreAt { base: u16, len: u16, line: u32 },
    /// Pops a word, and writes it to a message: the kept fault, if there is one, in its place.
    Write(u16),
    /// Reads a word of a message into a variable.
    Read { message: u16, word: u16 },
    /// Takes the next input number into a variable.
    Take(u16),
    /// Pops a word, and emits it: the kept fault, if there is one, in its place.
    Emit,
    /// Begins a loop: its counter becomes 0, and where there are no turns, it goes to `exit`.
    Loop { counter: u8, turns: u32, exit: u32 },
    /// Ends a turn of a loop: its counter grows up to `turns`, and where it is still below, it goes to `body`.
    Next { counter: u8, turns: u32, body: u32 },
    /// Pops a test, and goes to the address where the second arm of an `if` is taken.
    IfZero(u32),
    /// Goes to the address.
    Jump(u32),
    /// No step.
    Halt,
}
