//! Judges expressions against the typing rules: names, calls, and whole expressions from their parts.
#![tactic(auto)]

pub mod arguments;
pub mod calls;
pub mod expressions;
pub mod library;
pub mod names;

pub use expressions::Sight;
