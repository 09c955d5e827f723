//! Whole numbers of any size.
#![tactic(auto)]

mod digits;
pub mod number;
#[cfg(test)]
mod tests;

pub use number::Wide;
