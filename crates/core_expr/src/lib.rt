//! Lowering of expressions: what a typed expression comes to, and its core.
#![tactic(auto)]

pub mod expressions;
pub mod places;
pub mod reading;
pub mod steps;

pub use expressions::Sight;
pub use places::Found;
