//! Tests alone, of phases, delays and plans.
#![tactic(auto)]

#[cfg(test)]
mod tests;
