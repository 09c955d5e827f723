//! Tests alone, of parsing, and the front end on sources.
#![tactic(auto)]

#[cfg(test)]
mod tests;
