//! Tests alone, of points, forms and flows.
#![tactic(auto)]

#[cfg(test)]
mod tests;
