//! One module for each crate.

mod judging;
mod keeping;
