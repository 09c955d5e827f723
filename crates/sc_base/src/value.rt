//! What cells hold, where they lie, and how a node ends.

/// What a cell or a local holds: a whole number of 64 bits with sign, null, or a pointer to a cell.
#[derive(Clone, Copy, Debug, PartialEq, Eq)]
pub enum Value {
    Int(i64),
    Null,
    Ptr { object: u32, node: u32, offset: u32 },
}

/// A cell: the object that it belongs to, the node that keeps it, and its number among the object's cells there.
#[derive(Clone, Copy, Debug, PartialEq, Eq)]
pub struct Place {
    pub object: u32,
    pub node: u32,
    pub offset: u32,
}

/// Why a node stopped before its end.
#[derive(Clone, Copy, Debug, PartialEq, Eq)]
pub enum FaultKind {
    Divide,
    Overflow,
    Shift,
    Index,
    NullUse,
    BadNode,
    PendingUse,
    BadSize,
    Depth,
}

/// How a node ended. A fault has the line of the source at which it came, counted from 1.
#[derive(Clone, Copy, Debug, PartialEq, Eq)]
pub enum End {
    Ended,
    Fault { kind: FaultKind, line: u32 },
    Cut,
    Waiting,
}

/// How a copy of cells is waited for.
#[derive(Clone, Copy, Debug, PartialEq, Eq)]
pub enum CopyMode {
    Blocking,
    Split,
    OneWay,
}

/// The one answer that no contract forbids: an allocation was refused.
#[derive(Clone, Copy, Debug, PartialEq, Eq)]
pub struct OutOfMemory;
