//! Tests alone, of the node machine and the runner of core trees.
#![tactic(auto)]

#[cfg(test)]
mod tests;
