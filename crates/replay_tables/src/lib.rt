//! The tables that are kept while a list of source events is read: what each node has requested, which parts of its
//! transfers have occurred, where it stands between barriers and how it ended; and what each cell holds.
#![tactic(auto)]

pub mod cells;
pub mod entry;
pub mod requests;
pub mod row;
pub mod tables;

pub use cells::CellTable;
pub use tables::Tables;
