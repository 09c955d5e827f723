//! The least order.

ghost use Rattle.std.specs.Prelude.{◌≡◌, All, IfOk, MatchOption, None, Some};
ghost use Rattle.least_order.specs.Least.{IsWithin, least_order};

use crate::edge::Edge;
use crate::links::link;
use crate::taking::Taking;
use sc_base::OutOfMemory;
use std::alloc::{AllocError, Global};
use std::cmp::Reverse;

/// All items, by number, in the order in which again and again the least one is taken that no edge holds back, and none
/// where a cycle holds some back for ever.
fn taken(alloc: Global, count: usize, edges: &[Edge]) -> Result<Option<Vec<usize>>, AllocError>
    requires { All (IsWithin count) edges.now }
    ensures { IfOk result (λ found. MatchOption found (least_order edges.now count ≡ None)
        (λ order. least_order edges.now count ≡ Some order.items)) }
{
    let links = link(alloc, count, edges)?;
    let mut taking = Taking::new(alloc, count, edges)?;
    while let Some(Reverse(item)) = taking.ready.pop() {
        taking.order.push(item)?;
        taking.release(edges, &links, item)?;
    }
    if taking.order.len() == count {
        Ok(Some(taking.order))
    } else {
        Ok(None)
    }
}

/// The items 0 to `count` - 1 in their least order: again and again the least item is taken before which, by the edges,
/// no item that is left has to come. None where some items are never taken, as those of a cycle.
pub fn least_order(
    alloc: Global,
    count: usize,
    edges: &[Edge],
) -> Result<Option<Vec<usize>>, OutOfMemory>
    requires { All (IsWithin count) edges.now }
    ensures { IfOk result (λ found. MatchOption found (least_order edges.now count ≡ None)
        (λ order. least_order edges.now count ≡ Some order.items)) }
{
    match taken(alloc, count, edges) {
        Ok(found) => Ok(found),
        Err(_) => Err(OutOfMemory),
    }
}
