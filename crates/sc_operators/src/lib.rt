//! Typed expressions made of judged operands: what each operator, chain and postfix expression gives, and notes of
//! which rules on its operands are broken.
#![tactic(auto)]

pub mod chains;
pub mod noting;
pub mod operators;
pub mod tails;
