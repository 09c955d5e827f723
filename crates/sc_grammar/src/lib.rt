//! The grammar of the language: which tokens are a sentence and of which tree, how the tree of tokens is read, and
//! the laws of both. What is read here are lists; `sc_parser` has the code.
#![tactic(auto)]

pub mod error;
pub mod one_tree;
pub mod operators;
pub mod position;
pub mod refusals;

pub use error::{ParseError, Refused};
pub use operators::{Assigning, Operator, Prefix};
pub use position::Position;
