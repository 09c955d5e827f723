//! The simulated run of a compiled source: picks choose each next move among those of its nodes and of the messages in
//! flight.
#![tactic(auto)]

mod run;

pub use code_sim::{ListPicks, Picks, SeedPicks};
pub use run::run_picks;
