//! The fabric that joins the nodes: memory, messages in flight, books and the journal of a run.
#![tactic(auto)]

mod answers;
mod barriers;
mod deliveries;
mod issuing;
pub mod laws;
pub mod log;
pub mod reads;
pub mod state;
mod steps;
#[cfg(test)]
mod tests;
mod waits;

pub use answers::{Delivered, Issued, Passed, Waited};
pub use state::{Fabric, Run};
