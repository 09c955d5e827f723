//! The frames of a node that runs code, with one list of operands and one of locals for all of them, and its counts of
//! reads.
#![tactic(auto)]

pub mod counts;
pub mod frames;
pub mod landing;
pub mod taking;

pub use counts::Counts;
pub use frames::Frames;
