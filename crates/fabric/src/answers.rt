//! What the calls of the fabric answer.

use msg_pool::Message;
use sc_base::Value;

/// An access was issued under this number, and made so many messages.
#[derive(Clone, Copy, Debug, PartialEq, Eq)]
pub struct Issued {
    pub number: u64,
    pub messages: u32,
}

/// This message was delivered, and its part has this value.
#[derive(Clone, Copy, Debug, PartialEq, Eq)]
pub struct Delivered {
    pub message: Message,
    pub value: Value,
}

/// A wait is over, or so many cells of the node's accesses on its counter have a part still to occur.
#[derive(Clone, Copy, Debug, PartialEq, Eq)]
pub enum Waited {
    Landed,
    NotYet { outstanding: u64 },
}

/// A barrier is passed; or so many nodes have not arrived at its release and so many cells that it waits for have a
/// part still to occur; or it is broken, and this is the least node that has finished.
#[derive(Clone, Copy, Debug, PartialEq, Eq)]
pub enum Passed {
    Yes,
    NotYet { missing: u32, flying: u64 },
    Broken { ended: u32 },
}
