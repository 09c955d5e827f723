//! Replay: whether a list of events is a legal and complete history of a source, by running the source's nodes under
//! the list's own answers, and what it shows in the end.
#![tactic(auto)]

mod front;
pub mod histories;
pub mod judge;
mod nodes;

pub use histories::{replay, replay_core};
