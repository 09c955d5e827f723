//! Laws of how far a history that is read event by event has come: the nodes stand where its answers have led them, and
//! what is kept answers for its past. Each law is the contract of a public function with an empty body; nothing of it
//! runs.
#![tactic(auto)]

pub mod laws;

pub use laws::{courses_are_followed, histories_are_told, stages_go_on};
