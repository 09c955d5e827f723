//! What has to come before what.

/// The item `before` has to come before the item `after`.
#[derive(Clone, Copy, Debug, PartialEq, Eq)]
pub struct Edge {
    pub before: usize,
    pub after: usize,
}
