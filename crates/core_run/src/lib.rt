//! A node that walks its core tree: what it requests, what it prints and how it ends, step by step, under the answers
//! that it is given.
#![tactic(auto)]

mod expressions;
pub mod runner;
mod statements;
pub mod step;
mod task;

pub use runner::Runner;
pub use step::{Answer, Halt, Step};
