//! The outside as traits with a count of faults, whole reads and writes, and the words that every crate above shares.
#![tactic(auto)]

mod limits;
mod memory_sink;
mod memory_source;
mod sink;
mod source;
mod standard;
mod thrown;
mod whole;

pub use limits::Limits;
pub use memory_sink::MemorySink;
pub use memory_source::MemorySource;
pub use sink::{Sink, WriteStop};
pub use source::{Failed, Source};
pub use standard::{StdSink, StdSource};
pub use thrown::{Thrown, word_of};
pub use whole::{ReadStop, read_whole, write_whole};

#[cfg(test)]
mod tests;
