//! The node machine: it runs the code of a node from one event to the next.
#![tactic(auto)]

pub mod accesses;
pub mod begin;
pub mod control;
pub mod dispatch;
pub mod machine;
pub mod node;
pub mod pure;
pub mod quick;

pub use node::{Answer, Asked, Node};
