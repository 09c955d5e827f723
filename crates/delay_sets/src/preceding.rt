//! Which access of a node is over before another begins.

ghost use Rattle.std.specs.Prelude.{◌≡◌, ◌<◌, ◌+◌, length, IfOk, false};
ghost use Rattle.site_graph.specs.Bits.{IsOf};
ghost use Rattle.site_graph.specs.Graph.{is_blocking};
ghost use Rattle.site_graph.specs.Reached.{AreFirsts};
ghost use Rattle.site_graph.specs.Ways.{Precedes, IsOverBefore};
ghost use Rattle.delay_sets.specs.Preceding.{AreBarriers, AreSyncsIn};

use crate::clear::{add_sites, clear_ways, places};
use sc_base::OutOfMemory;
use site_graph::{BitRows, Flow, PointKind, Site, first_edges, search, search_any};
use std::alloc::Global;

/// Sets (a, b) exactly where the access of the site a is over, in the source, before that of the site b begins.
pub fn preceding(alloc: Global, flow: &Flow) -> Result<BitRows, OutOfMemory>
    ensures { IfOk result (IsOf (length flow.now.sites + 1) (length flow.now.sites + 1) (Precedes flow.now)) }
{
    let firsts = first_edges(alloc, flow)?;
    let barriers = barriers(alloc, flow)?;
    let places = places(alloc, flow)?;
    let clear = clear_ways(alloc, flow, &firsts, &places)?;
    let count = flow.sites.as_slice().len() as u32 + 1;
    let mut rows = BitRows::new(alloc, count, count)?;
    for (at, point) in flow.points.as_slice().iter().enumerate() {
        if let PointKind::Access(number) = point.kind {
            let site = flow.site(number);
            if site.kind.is_blocking() {
                rows.add_common(number, &clear, number, &clear, number);
            } else {
                let over = over_at(alloc, flow, &firsts, &site, at as u32, &barriers)?;
                add_sites(flow, &places, &over, number, &mut rows);
            }
        }
    }
    Ok(rows)
}

/// The barriers of the flow in the first row, and no point in the second.
fn barriers(alloc: Global, flow: &Flow) -> Result<BitRows, OutOfMemory>
    ensures { IfOk result (AreBarriers flow.now) }
{
    let points = flow.points.as_slice();
    let mut rows = BitRows::new(alloc, 2, points.len() as u32)?;
    for (at, point) in points.iter().enumerate() {
        if point.kind.is_barrier() {
            rows.set(0, at as u32);
        }
    }
    Ok(rows)
}

/// Sets, in its one row, the points at which the access of the site, which is not blocking, is over that began at the point
/// `at`.
fn over_at(
    alloc: Global,
    flow: &Flow,
    firsts: &[usize],
    site: &Site,
    at: u32,
    barriers: &BitRows,
) -> Result<BitRows, OutOfMemory>
    requires firsts { AreFirsts flow.now firsts.now }
    requires site { is_blocking site.now.kind ≡ false }
    requires at { at < length flow.now.points }
    requires barriers { AreBarriers flow.now barriers.now }
    ensures { IfOk result (IsOf 1 (length flow.now.points) (λ row u. IsOverBefore flow.now site.now at u)) }
{
    if site.kind.is_split() {
        let reached = search(alloc, flow, firsts, at, barriers, 1)?;
        let syncs = syncs_in(alloc, flow, &reached)?;
        return search_any(alloc, flow, firsts, &syncs, barriers, 0);
    }
    BitRows::new(alloc, 1, flow.points.as_slice().len() as u32)
}

/// The syncs among the points that are set in the one row.
fn syncs_in(alloc: Global, flow: &Flow, reached: &BitRows) -> Result<Vec<u32>, OutOfMemory>
    requires rows { reached.now.rows ≡ 1 }
    requires columns { reached.now.columns ≡ length flow.now.points }
    ensures { IfOk result (λ v. AreSyncsIn flow.now reached.now (length flow.now.points) v.items) }
{
    let mut syncs = Vec::new(alloc);
    for (at, point) in flow.points.as_slice().iter().enumerate() {
        if point.kind.is_sync() && reached.get(0, at as u32) {
            let Ok(()) = syncs.push(at as u32) else {
                return Err(OutOfMemory);
            };
        }
    }
    Ok(syncs)
}
