//! How statements of a core tree are left, which must be known before a loop's flow is drawn.
#![tactic(auto)]

pub mod leaving;
#[cfg(test)]
mod tests;

pub use leaving::{Leaving, again_from};
