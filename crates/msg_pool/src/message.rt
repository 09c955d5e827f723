//! What a message carries, and what names it.

use sc_base::{Place, Value};
use sc_isa::Track;

/// The part of an access that takes effect when the message is delivered. A read with `back` brings its value on to
/// that place.
#[derive(Clone, Copy, Debug, PartialEq, Eq)]
pub enum Part {
    Read { from: Place, back: Option<Place> },
    Write { to: Place, value: Value },
}

/// One cell of an access that is under way: who issued it, which of the issuer's accesses it belongs to, which cell of
/// that access it is, what it is counted on, and what it does.
#[derive(Clone, Copy, Debug, PartialEq, Eq)]
pub struct Message {
    pub issuer: u32,
    pub number: u64,
    pub cell: u32,
    pub track: Track,
    pub part: Part,
}

/// The name of a message in a pool: its key there, and the number of the puts before it. So no id names two messages.
#[derive(Clone, Copy, Debug, PartialEq, Eq)]
pub struct MsgId {
    pub key: u64,
    pub serial: u64,
}

impl Message {
    ghost use Rattle.std.specs.Prelude.{◌≡◌};
    ghost use Rattle.msg_pool.specs.Pool.{target_of};

    /// The node of the place that the message reads or writes.
    pub fn target(&self) -> u32
        ensures { result ≡ target_of self.now }
    {
        match self.part {
            Part::Read { from, .. } => from.node,
            Part::Write { to, .. } => to.node,
        }
    }
}
