//! Laws by which what is kept while a list of source events is read is all that the list says of the nodes. Each law is
//! the contract of a public function with an empty body; nothing of it runs.
#![tactic(auto)]

pub mod laws;

pub use laws::{books_answer, books_go_on};
