//! Lowering: the core tree of a typed source.
#![tactic(auto)]

mod acts;
mod declarations;
mod lowering;
mod statements;

pub use lowering::lower;
