//! What stands on a node's stack and in its locals.

use sc_base::Value;

/// An operand: a value, or what a read will give. A read is named by its counter and by its number among the reads on
/// that counter since the last wait on it.
#[derive(Clone, Copy, Debug, PartialEq, Eq)]
pub enum Operand {
    Here(Value),
    Landing { counter: u32, number: u64 },
}

/// A local: what it holds, or that an explicit get into it is pending, by its number among the reads on counter 0.
#[derive(Clone, Copy, Debug, PartialEq, Eq)]
pub enum Slot {
    Holds(Operand),
    Pending { number: u64 },
}
