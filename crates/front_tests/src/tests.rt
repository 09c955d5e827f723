//! One module for each crate.

mod parsing;
mod refusals;
