//! The tree of a list of tokens, by the grammar of `sc_grammar`.
#![tactic(auto)]

mod expressions;
mod items;
pub mod marks;
pub mod reader;
mod stars;
mod statements;
mod trees;
pub mod whole;

pub use sc_grammar::ParseError;
pub use whole::parse;
