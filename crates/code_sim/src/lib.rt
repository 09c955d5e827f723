//! The simulated run of node code: picks choose each next move among those of the nodes and of the messages in flight.
#![tactic(auto)]

mod node;
pub mod picks;
mod run;
mod steps;

pub use picks::{ListPicks, Picks, SeedPicks};
pub use run::run_code;
