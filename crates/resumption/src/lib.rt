//! Resumptions: what a process does from a moment on, whatever it is answered. What a source means and what the
//! machine code of a node does are resumptions, over events, answers and stops of their own. Each law is the contract
//! of a public function with an empty body; nothing of it runs.
#![tactic(auto)]

pub mod laws;

pub use laws::{
    Resuming, answers_extend, begins_with_next, follows_answers, forgets_events, says_first,
    stays_short,
};
