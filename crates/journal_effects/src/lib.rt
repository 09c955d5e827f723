//! The effects of a run, made from its journal.
#![tactic(auto)]

pub mod effect;
pub mod entries;
pub mod issues;
pub mod laws;
pub mod numbered;
pub mod occurred;
pub mod parts;
pub mod shown;
#[cfg(test)]
mod tests;

pub use numbered::are_numbered;
pub use shown::effects;
