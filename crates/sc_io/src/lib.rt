//! Sources and sinks of bytes. A read or a write that fails raises a count of its source or sink, so that a
//! fault never comes without its cause.
#![tactic(auto)]

pub mod adapter;
pub mod memory;
mod pieces;
pub mod steady;
pub mod stream;
#[cfg(test)]
mod tests;
pub mod whole;

pub use adapter::{ReadSource, WriteSink};
pub use memory::{MemorySink, MemorySource};
pub use steady::{SteadySink, SteadySource};
pub use stream::{Put, Sink, Source, Take};
pub use whole::{ReadError, WriteFault, read_all, write_all};
