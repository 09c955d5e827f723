//! The limits of the product.

/// How much of each quantity is accepted, and, of nodes and budgets, how much can be asked for.
#[derive(Clone, Copy, Debug, PartialEq, Eq)]
pub struct Limits {
    /// Bytes of a source.
    pub source: u64,
    /// Tokens of a source.
    pub tokens: u64,
    /// How many constructs may be open at a token.
    pub depth: u64,
    /// Objects at file scope.
    pub objects: u64,
    /// Cells on the fullest node.
    pub cells: u64,
    /// Access sites of a source.
    pub sites: u64,
    /// Locals and parameters of one function.
    pub locals: u64,
    /// Nodes of the machine.
    pub nodes: u64,
    /// Loop turns and calls of one node.
    pub budget: u64,
    /// The greatest number of a demo source.
    pub demo: u64,
    /// Frames of one node.
    pub frames: u64,
}

/// The limits that this product keeps.
pub const LIMITS: Limits = Limits {
    source: 262144,
    tokens: 65536,
    depth: 64,
    objects: 256,
    cells: 65536,
    sites: 1024,
    locals: 64,
    nodes: 16,
    budget: 1000000,
    demo: 400,
    frames: 256,
};
