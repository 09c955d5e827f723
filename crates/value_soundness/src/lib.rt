//! Soundness of values: what a typed source asks lies in the layout, and every value fits its type, its pointers
//! naming exposed objects only. Each law is the contract of a public function with an empty body; nothing of it runs.
#![tactic(auto)]

pub mod laws;

pub use laws::{legal_pasts_are_lawful, runs_are_lawful};
