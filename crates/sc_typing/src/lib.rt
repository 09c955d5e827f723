//! The typing rules of the language: what they say of types, values and names, and which of them a tree breaks.
#![tactic(auto)]

pub mod answer;
pub mod calls;
pub mod chains;
pub mod file;
pub mod known;
pub mod laws;
pub mod library;
pub mod notes;
pub mod places;
pub mod rule;
pub mod rules;
pub mod scope;
pub mod types;

pub use answer::CheckError;
pub use rule::Rule;
