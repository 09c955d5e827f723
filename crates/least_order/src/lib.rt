//! The least order of numbered items, of which some have to come before others.
#![tactic(auto)]

pub mod edge;
mod links;
pub mod order;
mod taking;
#[cfg(test)]
mod tests;

pub use edge::Edge;
pub use order::least_order;
