//! A lock over one value, which threads take by tickets. The value stands for a list that only grows, and each seat
//! knows how that list begins.
#![tactic(auto)]

mod book;
mod lock;
mod plays;
mod rule;
#[cfg(test)]
mod tests;

pub use book::{Book, Lane};
pub use lock::{Seat, Turn, TurnLock};
