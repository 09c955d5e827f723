//! The report of a run over any layout, and the status that it gives the program.
#![tactic(auto)]

pub mod nodes;
mod objects;
pub mod report;
pub mod status;
pub mod values;

pub use report::report_text;
pub use status::{Status, status_of_results};

#[cfg(test)]
mod tests;
