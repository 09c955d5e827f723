//! The source order of a run, from its journal.
#![tactic(auto)]

pub mod laws;
pub mod of_nodes;
pub mod ordering;
#[cfg(test)]
mod tests;

pub use of_nodes::are_on;
pub use ordering::{order, order_by_edges};
