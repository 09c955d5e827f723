//! The source order of a run of a compiled source.
#![tactic(auto)]

pub mod ordering;

pub use ordering::order;
