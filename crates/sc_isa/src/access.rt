//! What a node asks of the memory of the nodes.

use sc_base::{Place, Value};

/// What an access is waited for by: a counter, which is 0 for explicit gets and puts and else the number of a
/// site that blocks; as an explicit one-way store; or as a one-way store that the compiler made of a write.
#[derive(Clone, Copy, Debug, PartialEq, Eq)]
pub enum Track {
    Counter(u32),
    Store,
    Covered,
}

/// An access to cells: a read of one, a write of one, or a copy of as many cells from one place on to another.
#[derive(Clone, Copy, Debug, PartialEq, Eq)]
pub enum Access {
    Read {
        place: Place,
        track: Track,
    },
    Write {
        place: Place,
        value: Value,
        track: Track,
    },
    Copy {
        from: Place,
        to: Place,
        cells: u32,
        track: Track,
    },
}
