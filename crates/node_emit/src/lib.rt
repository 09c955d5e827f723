//! The code of a source: its core tree in instructions, under a plan of waits.
#![tactic(auto)]

mod draft;
mod error;
mod statements;
mod steps;
mod values;
mod whole;

pub use error::EmitError;
pub use whole::{check_locals, emit};
