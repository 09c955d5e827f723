//! What an instruction of a node computes from its values: values and pointers, places, bulk transfers, elements, and
//! printed text.
#![tactic(auto)]

pub mod computing;
pub mod copying;
pub mod element;
pub mod places;
pub mod printing;
