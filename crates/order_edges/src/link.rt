//! One edge more.

ghost use Rattle.std.specs.Prelude.{◌≡◌, ◌++◌, OnOk};
ghost use Rattle.order_edges.specs.Lines.{link};

use least_order::Edge;
use std::alloc::AllocError;

/// Adds an edge between the two items, if there are both.
pub fn link(
    edges: &mut Vec<Edge>,
    before: Option<usize>,
    after: Option<usize>,
) -> Result<(), AllocError>
    ensures { OnOk result (edges.new.items ≡ edges.old.items ++ link before after) }
{
    if let (Some(before), Some(after)) = (before, after) {
        edges.push(Edge { before, after })?;
    }
    Ok(())
}
