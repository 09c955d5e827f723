//! The front end: from the bytes of a source to its typed tree and its layout, or the first refusal.
#![tactic(auto)]

pub mod accepted;
pub mod laws;
pub mod refusal;

pub use accepted::{Accepted, accept};
pub use refusal::{CompileError, Refusal};
