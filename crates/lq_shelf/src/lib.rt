//! What the program meets outside: named files to read, an output to write to, and a gate that
//! runners of threads pass. Each is a trait with a written meaning, a version in memory, and an
//! adapter over the real thing.
#![tactic(auto)]

mod file_shelf;
mod gate;
mod mem_shelf;
mod mem_sink;
mod reader_shelf;
mod shelf;
mod sink;
mod std_sink;
mod writer_sink;

pub use file_shelf::FileShelf;
pub use gate::{Gate, OpenGate};
pub use mem_shelf::MemShelf;
pub use mem_sink::MemSink;
pub use shelf::{Fetch, Shelf};
pub use sink::{Put, Sink};
pub use std_sink::StdSink;

#[cfg(test)]
mod tests;
