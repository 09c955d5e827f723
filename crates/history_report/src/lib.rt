//! The lines of a source's history.
#![tactic(auto)]

mod events;
#[cfg(test)]
mod tests;
pub mod text;

pub use text::history_text;
