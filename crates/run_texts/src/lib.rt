//! What a run of a compiled source shows: its report, and its history.
#![tactic(auto)]

pub mod runs;
pub mod texts;

pub use runs::{Report, explanation, run_report};
pub use texts::{history_text, report_text};
