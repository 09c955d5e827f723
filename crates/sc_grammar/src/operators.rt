//! The operators that marks stand for.

use sc_base::Binary;

/// An operator that joins operands. `level` tells how tightly it binds, from 0 for `*` to 9 for `||`, and `op` is
/// None for `&&` and `||`, whose operands are not all evaluated.
#[derive(Clone, Copy, Debug, PartialEq, Eq)]
pub struct Operator {
    pub level: u32,
    pub op: Option<Binary>,
}

/// An operator that assigns: `=`, where `op` is None, or a compound one.
#[derive(Clone, Copy, Debug, PartialEq, Eq)]
pub struct Assigning {
    pub op: Option<Binary>,
}

/// An operator before its operand.
#[derive(Clone, Copy, Debug, PartialEq, Eq)]
pub enum Prefix {
    Minus,
    Plus,
    Not,
    Invert,
    Deref,
    Address,
    Up,
    Down,
}
