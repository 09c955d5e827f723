//! A source's node as a machine: a list of pending work, the values that it made, its locals and its budget. It does
//! what the source means.
#![tactic(auto)]

pub mod laws;

pub use laws::{machine_follows_meaning, runs_in_one_way};
