//! One module for each crate, and what they share.

mod picking;
mod replayed;
mod running;
mod telling;
