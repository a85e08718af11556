//! The outside: shelves that hold files, and sinks that take bytes.
#![tactic(auto)]

mod file_shelf;
mod mem_shelf;
mod mem_sink;
mod shelf;
mod sink;
mod stream_sink;
mod sure_shelf;
mod sure_sink;

pub use file_shelf::FileShelf;
pub use mem_shelf::MemShelf;
pub use mem_sink::MemSink;
pub use shelf::{Fetched, Shelf, ShelfError};
pub use sink::{Sink, SinkError};
pub use stream_sink::StreamSink;
pub use sure_shelf::SureShelf;
pub use sure_sink::SureSink;
