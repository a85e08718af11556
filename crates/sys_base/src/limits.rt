//! The limits of the language and of runs (`docs/language.md`, "Limits").

/// The most rows, and the most columns, of a grid.
pub const SIDE: u64 = 16;

/// The most cells of a grid.
pub const CELLS: u64 = SIDE * SIDE;

/// More than the id of any link: four directions for each cell.
pub const LINKS: u64 = 4 * CELLS;

/// The most bytes of a name.
pub const NAME_BYTES: usize = 32;

/// The most bytes of a source.
pub const SOURCE_BYTES: usize = 1_048_576;

/// The most bytes of an object, as it is printed and read.
pub const OBJECT_BYTES: usize = 67_108_864;

/// The most bytes of an input.
pub const INPUT_BYTES: usize = 402_653_184;

/// The most bytes of a schedule, as it is printed and read.
pub const SCHEDULE_BYTES: usize = 268_435_456;

/// The most messages of a program.
pub const MESSAGES: usize = 512;

/// The greatest buffer of a program: the words of one message that its order may have written and not yet read.
pub const BUFFER: u64 = 64;

/// The most queues of a link.
pub const QUEUES: u64 = 32;

/// The greatest label of a message.
pub const LABEL: u64 = 65_535;

/// The most names of variables and arrays in a cell.
pub const VARIABLES: usize = 64;

/// The most words of variables and arrays in a cell.
pub const WORDS: u64 = 1_024;

/// The most turns of a loop.
pub const TURNS: u64 = 65_535;

/// The most steps of a program, for the cost of its cells and for its bound.
pub const STEPS: u32 = 16_777_216;
