//! What a node that walks its core tree keeps: its pending work, its values and its locals; and what its steps do with
//! values.
#![tactic(auto)]

pub mod deeds;
pub mod memory;
pub mod stack;
pub mod values;

pub use memory::{Memory, Spot};
pub use stack::Stack;
pub use values::Values;
