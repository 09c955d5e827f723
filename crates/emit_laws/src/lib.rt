//! Laws of the code of a source. Each is the contract of a public function with an empty body; nothing of it runs.
#![tactic(auto)]

pub mod plans;

pub use plans::plain_plans_wait_in_time;
