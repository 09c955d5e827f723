//! Items as they are taken one after another.

ghost use Rattle.std.specs.Prelude.{◌≡◌, ◌<◌, All, IfOk, OnOk, length};
ghost use Rattle.least_order.specs.Least.{IsWithin};
ghost use Rattle.least_order.specs.Taking.{AreLinks, AreCounts, IsBegun, StandsAt, Stands, last};

use crate::edge::Edge;
use crate::links::Links;
use std::alloc::{AllocError, Global};
use std::cmp::Reverse;
use std::collections::BinaryHeap;

/// The items taken, for each item how many edges lead to it from items that are left, and the items left that none does.
#[derive(Drop)]
pub struct Taking {
    pub order: Vec<usize>,
    pub counts: Vec<usize>,
    pub ready: BinaryHeap<Reverse<usize>>,
}

/// For each item how many edges lead to it.
fn counts(alloc: Global, count: usize, edges: &[Edge]) -> Result<Vec<usize>, AllocError>
    requires { All (IsWithin count) edges.now }
    ensures { IfOk result (λ v. AreCounts edges.now count v.items) }
{
    let mut counts = vec![in alloc; 0; count]?;
    for edge in edges {
        counts[edge.after] += 1;
    }
    Ok(counts)
}

impl Taking {
    /// Before any item is taken.
    pub fn new(alloc: Global, count: usize, edges: &[Edge]) -> Result<Taking, AllocError>
        requires { All (IsWithin count) edges.now }
        ensures { IfOk result (IsBegun edges.now count) }
    {
        let counts = counts(alloc, count, edges)?;
        let mut ready = BinaryHeap::new(alloc);
        for (item, held) in counts.as_slice().iter().enumerate() {
            if *held == 0 {
                ready.push(Reverse(item))?;
            }
        }
        Ok(Taking {
            order: Vec::new(alloc),
            counts,
            ready,
        })
    }

    /// Counts the edges that lead from the item, which was the last one taken, no more.
    pub fn release(&mut self, edges: &[Edge], links: &Links, item: usize) -> Result<(), AllocError>
        requires within { All (IsWithin (length self.old.counts.items)) edges.now }
        requires links { AreLinks edges.now (length self.old.counts.items) links.now }
        requires item { item < length self.old.counts.items }
        requires stands { let count = length self.old.counts.items in
            StandsAt edges.now count item (last edges.now item (length edges.now)) self.old }
        ensures order { OnOk result (self.new.order.items ≡ self.old.order.items) }
        ensures stands { OnOk result (Stands edges.now (length self.old.counts.items) self.new) }
    {
        let mut at = links.lasts[item];
        while at != 0 {
            let edge = at - 1;
            let after = edges[edge].after;
            self.counts[after] -= 1;
            if self.counts[after] == 0 {
                self.ready.push(Reverse(after))?;
            }
            at = links.earlier[edge];
        }
        Ok(())
    }
}
