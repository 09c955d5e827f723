//! The tokens of a source.
#![tactic(auto)]

mod class;
mod defined;
mod element;
mod format;
mod gap;
pub mod laws;
mod number;
pub mod refusal;
mod scan;
mod spelling;
pub mod whole;

pub use refusal::LexError;
pub use whole::lex;

#[cfg(test)]
mod tests;
