//! What a program reads and writes: named inputs and an output, each with an error count, in memory and over the system.
#![tactic(auto)]

mod file_shelf;
mod fill;
mod mem_shelf;
mod mem_sink;
mod open;
mod shelf;
mod sink;
mod std_sink;

pub use file_shelf::FileShelf;
pub use mem_shelf::MemShelf;
pub use mem_sink::MemSink;
pub use open::{Open, SystemFiles};
pub use shelf::{Shelf, ShelfFault};
pub use sink::{Sink, SinkFault};
pub use std_sink::StdSink;
