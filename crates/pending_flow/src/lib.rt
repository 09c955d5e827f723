//! The first points of a flow that demand what is pending.
#![tactic(auto)]

ghost use Rattle.std.specs.Prelude.{◌≡◌, ◌<◌, ◌+◌, length, IfOk};
ghost use Rattle.site_graph.specs.Reached.{AreFirsts};
ghost use Rattle.pending_flow.specs.Pending.{ArePending, IsAdded};

use sc_base::OutOfMemory;
use site_graph::{BitRows, Flow, PointKind, first_edges, search};
use std::alloc::Global;

/// The first demands of each site. Rows are the flow's sites by number, and columns are its points, in `demand` as in the
/// result: `demand` says which points demand which sites, and the result has (a, t) exactly where t demands a and a path
/// leads from the point of a to t with no inner point that demands a.
pub fn pending(alloc: Global, flow: &Flow, demand: &BitRows) -> Result<BitRows, OutOfMemory>
    requires rows { demand.now.rows ≡ length flow.now.sites + 1 }
    requires columns { demand.now.columns ≡ length flow.now.points }
    ensures { IfOk result (ArePending flow.now demand.now) }
{
    let firsts = first_edges(alloc, flow)?;
    let mut pending = BitRows::new(alloc, demand.rows(), demand.columns())?;
    for (at, point) in flow.points.as_slice().iter().enumerate() {
        if let PointKind::Access(site) = point.kind {
            add_first_demands(alloc, flow, &firsts, demand, site, at as u32, &mut pending)?;
        }
    }
    Ok(pending)
}

/// Adds the first demands of the site, whose point is `at`.
fn add_first_demands(
    alloc: Global,
    flow: &Flow,
    firsts: &[usize],
    demand: &BitRows,
    site: u32,
    at: u32,
    pending: &mut BitRows,
) -> Result<(), OutOfMemory>
    requires firsts { AreFirsts flow.now firsts.now }
    requires site { site < demand.now.rows }
    requires point { at < length flow.now.points }
    requires columns { demand.now.columns ≡ length flow.now.points }
    requires same_rows { pending.old.rows ≡ demand.now.rows }
    requires same_columns { pending.old.columns ≡ demand.now.columns }
    ensures { IfOk result (λ _. IsAdded flow.now demand.now site at pending.old pending.new) }
{
    let found = search(alloc, flow, firsts, at, demand, site)?;
    pending.add_common(site, &found, 0, demand, site);
    Ok(())
}
