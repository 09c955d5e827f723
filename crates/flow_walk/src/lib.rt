//! The flow of a source, drawn statement by statement.
#![tactic(auto)]

pub mod actions;
pub mod source;
pub mod walk;

pub use source::flow;
pub use walk::Walk;
