//! Tests alone: what the program answers to whole sources.
#![tactic(auto)]

#[cfg(test)]
mod tests;
