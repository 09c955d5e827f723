//! Why a core tree has no code.

ghost use Rattle.std.specs.Prelude.{◌≡◌};
ghost use Rattle.node_emit.specs.declared.error.EmitError.TheVariants.{OutOfMemory};

use std::alloc::AllocError;

/// Why a core tree has no code. Want of memory may come at any of them.
#[derive(Clone, Copy, Debug, PartialEq, Eq)]
pub enum EmitError {
    /// The first function in the order of the text with more locals than the limit: how many, its parameters among
    /// them.
    TooManyLocals { count: u32 },
    /// An allocation was refused, or there is more code than 32 bits count.
    OutOfMemory,
}

impl From<AllocError> for EmitError {
    ghost from_gives = { λ _ e. e ≡ OutOfMemory };

    fn from(_error: AllocError) -> EmitError {
        EmitError::OutOfMemory
    }
}
