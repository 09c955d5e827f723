//! Replay: whether a list of events is a legal and complete history of a source.
#![tactic(auto)]

pub mod laws;

pub use laws::{courses_go_on, judged_in_one_way};
