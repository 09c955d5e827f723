//! The messages that are under way, in the order in which they were put, and those of each issuer and to each target
//! in the same order. Each message is one entry of a slab, and is linked by index in three doubly linked lists.
#![tactic(auto)]

mod chain;
pub mod laws;
pub mod message;
mod pool;
mod slot;
#[cfg(test)]
mod tests;

pub use message::{Message, MsgId, Part};
pub use pool::MsgPool;
