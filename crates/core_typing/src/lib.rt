//! What typing promises of core trees: a source in which no rule is broken lowers to a tree whose steps all take what
//! is of their kind.
#![tactic(auto)]

pub mod laws;
