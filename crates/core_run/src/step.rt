//! What a node does next, and what it is answered.

use sc_base::{End, Value};
use sc_meaning::Request;

/// How a node stops: it ends, or it meets a value of a wrong kind, as no typed source does.
#[derive(Clone, Copy, Debug, PartialEq, Eq)]
pub enum Halt {
    Finishes(End),
    Breaks,
}

/// What a node does next: a request that is answered, one that is not, or that it stops.
#[derive(Clone, Copy, Debug, PartialEq, Eq)]
pub enum Step {
    Asks(Request),
    Makes(Request),
    Stops(Halt),
}

/// What a node is answered: the value of a read, the values that land at a sync in order of issue, or whether a
/// barrier is passed.
#[derive(Clone, Copy, Debug)]
pub enum Answer<'a> {
    Shown(Value),
    Landed(&'a [Value]),
    Passed,
    Broken,
}
