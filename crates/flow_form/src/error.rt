//! Why a source has no flow.

/// A source has too many accesses, or there was no memory.
#[derive(Clone, Copy, Debug, PartialEq, Eq)]
pub enum FlowError {
    /// The whole source has so many accesses, which are more than the limit.
    TooManySites { count: u32 },
    OutOfMemory,
}
