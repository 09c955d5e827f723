//! Which cells an access may reach, as far as its text tells.
#![tactic(auto)]

mod affine;
mod chain;
mod form;
mod offset;

pub use form::{form_of_chain, form_of_place};
