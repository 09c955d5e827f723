//! The flow of a source, drawn from its core tree point by point.
#![tactic(auto)]

pub mod around;
pub mod drawing;
pub mod expressions;
pub mod locals;
pub mod places;

pub use around::Around;
pub use drawing::{Drawing, Outer};
pub use locals::Locals;
