//! Where the releases and the own items of a node stand.

ghost use Rattle.std.specs.Prelude.{◌≡◌, ◌<◌, ◌^◌, suc, length};

use crate::steps::Step;

/// How many releases there are, where they stand among the items, by number, and for each number the first one from it
/// on at which some node waits for stores.
#[derive(Drop)]
pub struct Releases {
    pub last: u64,
    pub items: Vec<Option<usize>>,
    pub stores: Vec<Option<usize>>,
    ghost small: { last < 2 ^ 63 },
}

/// A node's requests, and where its own items stand, by number, its issues, and for each number the next sync. The end
/// has the number after those of all requests.
#[derive(Drop)]
pub struct Node {
    pub node: u32,
    pub last: u64,
    pub steps: Vec<Step>,
    pub own: Vec<Option<usize>>,
    pub issues: Vec<Option<usize>>,
    pub syncs: Vec<Option<usize>>,
    ghost small: { last < 2 ^ 63 },
    ghost sized: { length steps.items ≡ suc last },
}
