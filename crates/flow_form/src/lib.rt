//! The flow of a source, from its core tree.
#![tactic(auto)]

pub mod count;
pub mod error;
pub mod gather;
pub mod laws;
pub mod scan;
pub mod sorted;

pub use count::Count;
pub use error::FlowError;
pub use laws::{flows_are_kept, points_stand_in_order, sites_are_the_accesses};
pub use scan::{Entries, Entry, Whole, entries_of, scan_source};
