//! Runs of the code of a source: those that picks make are whole, and whole runs of plain code have their source order.
//! Each law is the contract of a public function with an empty body; nothing of it runs.
#![tactic(auto)]

pub mod laws;

pub use laws::{
    code_runs_are_whole, picks_determine_the_code_run, plain_code_runs_have_no_cycle,
    plain_code_runs_plainly, plain_runs_are_ordered, simulated_runs_are_ordered,
    simulations_settle,
};
