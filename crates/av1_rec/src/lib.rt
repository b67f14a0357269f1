//! Recorded tile results as a text: reading it, running the filters on what it says, and printing the
//! report.
//!
//! A text is read by a grammar on bytes: each definition in `specs/` takes the front of the bytes and
//! gives a value and the rest, and each function here equals one of them.
#![tactic(auto)]

mod coder;
mod frame;
mod generated;
mod program;
mod text;

pub use coder::recorded_coder::RecordedCoder;
pub use coder::recorded_tile::RecordedTile;
pub use program::memory_sink::{MemorySink, PlainSink};
pub use program::memory_source::{MemorySource, PlainSource};
pub use program::run;
pub use program::sink::{Sink, SinkError};
pub use program::source::{Failed, Source};
pub use program::status::Status;
pub use program::std_streams::{ReadSource, WriteSink};

#[cfg(test)]
mod tests;
