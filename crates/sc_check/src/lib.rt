//! Checks a tree against the typing rules: the tree with types, or the first rule that is broken.
#![tactic(auto)]

pub mod checker;
pub mod declarations;
pub mod file_scope;
pub mod functions;
pub mod parameters;
pub mod simple;
pub mod statements;
pub mod values;

pub use checker::check;
pub use sc_typing::CheckError;
