//! Which sites of a source may reach the same cells.
#![tactic(auto)]

mod conflicting;
mod crossing;
mod nodes;
mod region;
mod sharing;

pub use conflicting::conflicts;

#[cfg(test)]
mod tests;
