//! Which sites of a source two nodes may stand at between the same two releases.
#![tactic(auto)]

pub mod aligning;
pub mod mapping;
pub mod meeting;
pub mod noting;
pub mod uneven;

pub use mapping::{phases, phases_early};
