//! The compiler: from the bytes of a source to its code, with all that is found on the way.
#![tactic(auto)]

pub mod analysed;
pub mod compiled;
pub mod laws;

pub use compiled::{Compiled, compile};
pub use front_end::{CompileError, Refusal};
