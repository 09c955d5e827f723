//! Laws of what a source means: of the tests of its histories, and of what they show of its nodes. Each is the contract
//! of a public function with an empty body; nothing of it runs.
#![tactic(auto)]

pub mod examples;
pub mod histories;
pub mod runs;
pub mod steps;
pub mod tests_are_exact;

pub use examples::{budgets_cut, conditions_are_needed, conditions_refuse, histories_hold};
pub use histories::{end_is_of_the_run, events_are_a_front, events_are_numbered, events_extend};
pub use runs::{budget_bounds, frames_are_bounded, points_are_forgotten};
pub use steps::{actions_are_their_instructions, steps_are_their_instructions};
pub use tests_are_exact::{complete_test_is_exact, test_is_exact};
