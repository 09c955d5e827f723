//! Tests alone, of the tables of a replay and of whole histories.
#![tactic(auto)]

#[cfg(test)]
mod tests;
