//! Laws that tie the stories of code and its source to their runs: marks and points are forgotten, and oracles answer as runs
//! are answered. Each is the contract of a public function with an empty body; nothing of it runs.
#![tactic(auto)]

pub mod stories;

pub use stories::{
    marks_are_forgotten, plays_are_runs, runs_are_by_oracles, runs_are_played, tells_are_runs,
};
