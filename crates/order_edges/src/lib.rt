//! Edges between the items of a run that say together what has to come before what.
#![tactic(auto)]

pub mod joined;
mod keyed;
mod line;
mod link;
mod nexts;
mod node;
mod releases;
mod steps;
mod tables;
#[cfg(test)]
mod tests;

pub use joined::edges;
