//! The memory of the nodes: a map from the places of a layout to the values of their cells.
#![tactic(auto)]

pub mod memory;
#[cfg(test)]
mod tests;

pub use memory::NodeMemory;
