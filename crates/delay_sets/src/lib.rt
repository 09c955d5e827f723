//! Which accesses of one node must not overlap.
#![tactic(auto)]

pub mod analysis;
pub mod clear;
pub mod laws;
pub mod preceding;
pub mod relations;

pub use analysis::delays;
pub use laws::delays_are_of_order;
