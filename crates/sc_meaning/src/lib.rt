//! What a source means: what each node does, and which lists of events are histories of it.
#![tactic(auto)]

pub mod event;
pub mod history;
pub mod outcome;
pub mod request;
#[cfg(test)]
mod tests;

pub use event::SourceEvent;
pub use history::SourceHistory;
pub use outcome::{Cells, Ends, NodeCells, ObjectCells, Outcome, Streams};
pub use request::Request;
