//! Effects of parts.

use sc_base::{Place, Value};

/// The effect of a part on its cell: which part of which of the node's accesses, and what it read or wrote where.
#[derive(Clone, Copy, Debug, PartialEq, Eq)]
pub struct CellEffect {
    pub node: u32,
    pub number: u64,
    pub cell: u32,
    pub wrote: bool,
    pub place: Place,
    pub value: Value,
}
