//! Where the bytes of a transcript come from and where its text goes: sources and sinks, in memory and over std's
//! readers and writers.
#![tactic(auto)]

mod memory;
mod plain;
mod sink;
mod source;
mod std_io;
#[cfg(test)]
mod tests;

pub use memory::{MemorySink, MemorySource};
pub use plain::{BytesSource, NullSink};
pub use sink::{Sink, WriteError, Wrote, write_all};
pub use source::{Read, Source};
pub use std_io::{StdSink, StdSource};
