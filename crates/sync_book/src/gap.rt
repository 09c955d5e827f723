//! What is missing for the next release.

/// What is missing for the next release of the barrier.
#[derive(Clone, Copy, Debug, PartialEq, Eq)]
pub struct Gap {
    /// How many nodes have not arrived.
    pub missing: u32,
    /// How many cells that the release waits for are still to take effect.
    pub flying: u64,
}
