//! Tests alone, of runs by picks, and what they show.
#![tactic(auto)]

#[cfg(test)]
mod tests;
