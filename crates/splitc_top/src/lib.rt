//! The program over any source and any sinks.
#![tactic(auto)]

mod line;
pub mod pairs;
pub mod reason;
mod texts;
pub mod top;
pub mod words;

pub use run_report::Status;
pub use run_texts::{history_text, report_text};
