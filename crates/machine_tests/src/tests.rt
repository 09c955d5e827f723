//! One module for each crate, and what they share.

mod cells;
mod codes;
mod cores;
