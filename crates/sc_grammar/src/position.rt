//! Places among tokens.

/// Where a token stands: its number, from 1, and its line.
#[derive(Clone, Copy, Debug, PartialEq, Eq)]
pub struct Position {
    pub at: u32,
    pub line: u32,
}
