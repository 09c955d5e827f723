//! Why shapes have no layout.

ghost use Rattle.std.specs.Prelude.{◌≡◌};
ghost use Rattle.sc_layout.specs.declared.error.LayoutError.TheVariants.{OutOfMemory};

use std::alloc::{AllocError, AllocFailed};

/// Why shapes have no layout. The causes are tested in this order, and want of memory may come at any of them.
#[derive(Debug, Drop)]
pub enum LayoutError {
    /// There are more objects than the limit: how many, or `2^32 - 1` where there are more.
    TooManyObjects { count: u32 },
    /// The first bound whose checked value is not a positive number of 64 bits with sign begins on this line.
    BadBound { line: u32 },
    /// The fullest node has more cells than the limit: how many, or `2^64 - 1` where there are more.
    TooManyCells { cells: u64 },
    /// An allocation was refused.
    OutOfMemory,
}

impl From<AllocError> for LayoutError {
    ghost from_gives = { λ _ e. e ≡ OutOfMemory };

    fn from(_error: AllocError) -> LayoutError {
        LayoutError::OutOfMemory
    }
}

impl<T: Drop> From<AllocFailed<T>> for LayoutError {
    ghost from_gives = { λ _ e. e ≡ OutOfMemory };

    fn from(_error: AllocFailed<T>) -> LayoutError {
        LayoutError::OutOfMemory
    }
}
