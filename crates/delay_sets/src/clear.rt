//! Ways from site to site that are clear of barriers: chains of ways on which no other access is.

ghost use Rattle.std.specs.Prelude.{◌≡◌, ◌<◌, ◌≤◌, ◌+◌, length, IfOk};
ghost use Rattle.site_graph.specs.Bits.{IsOf};
ghost use Rattle.site_graph.specs.Reached.{AreFirsts};
ghost use Rattle.delay_sets.specs.Preceding.{IsWithSites};
ghost use Rattle.delay_sets.specs.ClearSites as ways;

use crate::relations::close;
use sc_base::OutOfMemory;
use site_graph::{BitRows, Flow, PointKind, search};
use std::alloc::Global;

/// Sets (a, b) exactly where a way that is clear of barriers leads from the point of the site a to that of the site b.
pub fn clear_ways(
    alloc: Global,
    flow: &Flow,
    firsts: &[usize],
    places: &[u32],
) -> Result<BitRows, OutOfMemory>
    requires firsts { AreFirsts flow.now firsts.now }
    requires places { ways.ArePlaces flow.now (length flow.now.points) places.now }
    ensures { IfOk result (IsOf (length flow.now.sites + 1) (length flow.now.sites + 1) (ways.IsClearTo flow.now)) }
{
    // Read for the proof alone, which learns what each flow keeps.
    let _sites = flow.sites.as_slice();
    let mut rows = next_sites(alloc, flow, firsts, places)?;
    close(&mut rows);
    Ok(rows)
}

/// Sets (a, b) exactly where a way leads from the site a to the site b on which neither a barrier nor an access is.
fn next_sites(
    alloc: Global,
    flow: &Flow,
    firsts: &[usize],
    places: &[u32],
) -> Result<BitRows, OutOfMemory>
    requires firsts { AreFirsts flow.now firsts.now }
    requires places { ways.ArePlaces flow.now (length flow.now.points) places.now }
    ensures { IfOk result (IsOf (length flow.now.sites + 1) (length flow.now.sites + 1) (ways.IsNextSite flow.now)) }
{
    let stops = stops(alloc, flow)?;
    let count = flow.sites.as_slice().len() as u32 + 1;
    let mut rows = BitRows::new(alloc, count, count)?;
    for (at, point) in flow.points.as_slice().iter().enumerate() {
        if let PointKind::Access(number) = point.kind {
            let reached = search(alloc, flow, firsts, at as u32, &stops, 0)?;
            add_sites(flow, places, &reached, number, &mut rows);
        }
    }
    Ok(rows)
}

/// The points at which a way from a site to the next ends, in one row.
fn stops(alloc: Global, flow: &Flow) -> Result<BitRows, OutOfMemory>
    ensures { IfOk result (ways.AreStops flow.now) }
{
    let points = flow.points.as_slice();
    let mut rows = BitRows::new(alloc, 1, points.len() as u32)?;
    for (at, point) in points.iter().enumerate() {
        if stops_ways(point.kind) {
            rows.set(0, at as u32);
        }
    }
    Ok(rows)
}

/// Whether it is a barrier or an access.
fn stops_ways(kind: PointKind) -> bool
    ensures { result ≡ ways.is_stop kind }
{
    match kind {
        PointKind::Access(_) => true,
        other => other.is_barrier(),
    }
}

/// The point of each site by its number; that of number 0 means nothing.
pub fn places(alloc: Global, flow: &Flow) -> Result<Vec<u32>, OutOfMemory>
    ensures { IfOk result (λ v. ways.ArePlaces flow.now (length flow.now.points) v.items) }
{
    let Ok(mut places) = vec![in alloc; 0u32; flow.sites.as_slice().len() + 1] else {
        return Err(OutOfMemory);
    };
    for (at, point) in flow.points.as_slice().iter().enumerate() {
        if let PointKind::Access(number) = point.kind {
            places[number as usize] = at as u32;
        }
    }
    Ok(places)
}

/// Sets in the row of the site `number` the sites whose points are set in the one row of `over`.
pub fn add_sites(flow: &Flow, places: &[u32], over: &BitRows, number: u32, rows: &mut BitRows)
    requires places { ways.ArePlaces flow.now (length flow.now.points) places.now }
    requires over_rows { over.now.rows ≡ 1 }
    requires over_columns { over.now.columns ≡ length flow.now.points }
    requires row { number < rows.old.rows }
    requires columns { rows.old.columns ≡ length flow.now.sites + 1 }
    ensures { IsWithSites flow.now over.now number (length flow.now.points) rows.old rows.new }
{
    for other in 1..flow.sites.as_slice().len() + 1 {
        if over.get(0, places[other]) {
            rows.set(number, other as u32);
        }
    }
}
