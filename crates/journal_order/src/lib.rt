//! The source order of a run, made from its journal.
#![tactic(auto)]

pub mod arranged;
pub mod laws;
pub mod listed;
pub mod own;
pub mod passed;
#[cfg(test)]
mod tests;

pub use arranged::arrange;
pub use listed::list_items;
