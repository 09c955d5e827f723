//! Calls.

/// The format that is the first argument of a call, with its token.
#[derive(Clone, Copy, Debug, PartialEq, Eq)]
pub struct Given {
    pub format: u32,
    pub at: u32,
}
