//! The edges that lead from an item, one behind another.

ghost use Rattle.std.specs.Prelude.{All, IfOk};
ghost use Rattle.least_order.specs.Least.{IsWithin};
ghost use Rattle.least_order.specs.Taking.{AreLinks};

use crate::edge::Edge;
use std::alloc::{AllocError, Global};

/// For each item the last edge that leads from it, and for each edge the one before it that leads from the same item.
/// Edges count from 1, and 0 is none.
#[derive(Drop)]
pub struct Links {
    pub lasts: Vec<usize>,
    pub earlier: Vec<usize>,
}

/// Links these edges between so many items.
pub fn link(alloc: Global, count: usize, edges: &[Edge]) -> Result<Links, AllocError>
    requires { All (IsWithin count) edges.now }
    ensures { IfOk result (AreLinks edges.now count) }
{
    let mut lasts = vec![in alloc; 0; count]?;
    let mut earlier = Vec::with_capacity(alloc, edges.len())?;
    for (number, edge) in edges.iter().enumerate() {
        earlier.push(lasts[edge.before])?;
        lasts[edge.before] = number + 1;
    }
    Ok(Links { lasts, earlier })
}
