//! Sources and sinks of bytes: the edge of the project to the outside.
//!
//! `Source` and `Sink` say which bytes are left and which were taken, where that is known, and count the calls that failed in
//! them. A failure is answered only where that count rose, so no caller can invent one. `read_all` and `write_all` move all
//! bytes. `MemSource` and `MemSink` give short pieces and fail when told to; `SteadySource` and `SteadySink` take no memory
//! once they are made; `StdSource` and `StdSink` stand over the readers and writers of std.
#![tactic(auto)]

mod fault;
mod mem_sink;
mod mem_source;
mod pieces;
mod reading;
mod sink;
mod source;
mod standard;
mod steady;
#[cfg(test)]
mod tests;
mod writing;

pub use fault::Failed;
pub use mem_sink::MemSink;
pub use mem_source::MemSource;
pub use reading::{ReadRefusal, read_all};
pub use sink::Sink;
pub use source::Source;
pub use standard::{StdSink, StdSource};
pub use steady::{SteadySink, SteadySource};
pub use writing::{WriteFault, write_all};

/// That memory could not be had, which no contract promises.
pub type OutOfMemory = std::alloc::AllocError;
