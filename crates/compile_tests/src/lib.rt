//! Tests alone, of compiled sources.
#![tactic(auto)]

#[cfg(test)]
mod tests;
