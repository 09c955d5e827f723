//! Which pairs of sites two nodes may stand at between the same two releases.

ghost use Rattle.std.specs.Prelude.{◌≡◌, ◌<◌, ◌+◌, ◌^◌, ◌↔◌, length, All, IfOk, IsTrue};
ghost use Rattle.site_graph.specs.Bits.{IsOf};
ghost use Rattle.site_graph.specs.Kept.{IsSiteOf};
ghost use Rattle.site_graph.specs.Plans.{Blocks};
ghost use Rattle.site_graph.specs.Reached.{AreFirsts};
ghost use Rattle.phase_map.specs.Meeting.{AllMeet};
ghost use Rattle.phase_map.specs.Noting.{AreBarriers};
ghost use Rattle.phase_map.specs.Phasing.{AreSiteRows, ArePlaces, IsMet, IsWithPairs, IsReachedSite, IsRowFor, Begins};

use sc_base::OutOfMemory;
use site_graph::{BitRows, Flow, PointKind, search};
use std::alloc::Global;

/// All pairs of sites.
pub fn all_meet(alloc: Global, flow: &Flow) -> Result<BitRows, OutOfMemory>
    ensures { IfOk result (AllMeet flow.now) }
{
    let sites = site_rows(alloc, flow)?;
    let mut meets = BitRows::new(alloc, sites.columns(), sites.columns())?;
    for site in 1..meets.rows() {
        meets.add_common(site, &sites, 0, &sites, 0);
    }
    Ok(meets)
}

/// The pairs of sites of which one is not blocking, or that some phase has both.
pub fn met(
    alloc: Global,
    flow: &Flow,
    firsts: &[usize],
    barriers: &BitRows,
) -> Result<BitRows, OutOfMemory>
    requires firsts { AreFirsts flow.now firsts.now }
    requires barriers { AreBarriers flow.now barriers.now }
    ensures { IfOk result (IsOf (length flow.now.sites + 1) (length flow.now.sites + 1) (IsMet flow.now (length flow.now.points))) }
{
    let places = places(alloc, flow)?;
    let mut meets = met_outside(alloc, flow)?;
    for (at, point) in flow.points.as_slice().iter().enumerate() {
        if begins_phase(point.kind) {
            let found = search(alloc, flow, firsts, at as u32, barriers, 0)?;
            let sites = sites_in(alloc, &places, &found)?;
            add_pairs(&sites, &mut meets);
        }
    }
    Ok(meets)
}

/// The pairs of sites of which one is not blocking.
fn met_outside(alloc: Global, flow: &Flow) -> Result<BitRows, OutOfMemory>
    ensures { IfOk result (IsOf (length flow.now.sites + 1) (length flow.now.sites + 1) (IsMet flow.now 0)) }
{
    let sites = site_rows(alloc, flow)?;
    let mut meets = BitRows::new(alloc, sites.columns(), sites.columns())?;
    for site in 1..meets.rows() {
        let row = partners(flow, site);
        meets.add_common(site, &sites, row, &sites, row);
    }
    Ok(meets)
}

/// In which row of `site_rows` those stand that the site meets outside of phases.
fn partners(flow: &Flow, number: u32) -> u32
    requires { IsSiteOf flow.now number }
    ensures { IsRowFor flow.now number result }
{
    if blocks(flow, number) {
        return 1;
    }
    0
}

/// In the first row all sites, and in the second those that are not blocking.
fn site_rows(alloc: Global, flow: &Flow) -> Result<BitRows, OutOfMemory>
    ensures { IfOk result (AreSiteRows flow.now) }
{
    let mut rows = BitRows::new(alloc, 2, flow.sites.as_slice().len() as u32 + 1)?;
    for site in 1..rows.columns() {
        rows.set(0, site);
        if !blocks(flow, site) {
            rows.set(1, site);
        }
    }
    Ok(rows)
}

/// Whether the site's access is over before the node's next step.
fn blocks(flow: &Flow, number: u32) -> bool
    requires { IsSiteOf flow.now number }
    ensures { IsTrue result ↔ Blocks flow.now number }
{
    flow.site(number).kind.is_blocking()
}

/// For each number of a site its point, and 0 for the number 0.
fn places(alloc: Global, flow: &Flow) -> Result<Vec<u32>, OutOfMemory>
    ensures { IfOk result (λ v. ArePlaces flow.now (length flow.now.points) v.items) }
{
    let Ok(mut places) = vec![in alloc; 0u32; flow.sites.as_slice().len() + 1] else {
        return Err(OutOfMemory);
    };
    for (at, point) in flow.points.as_slice().iter().enumerate() {
        if let PointKind::Access(site) = point.kind {
            places[site as usize] = at as u32;
        }
    }
    Ok(places)
}

/// Whether a phase begins there: at Start and at each barrier.
fn begins_phase(kind: PointKind) -> bool
    ensures { IsTrue result ↔ Begins kind }
{
    kind == PointKind::Start || kind.is_barrier()
}

/// Sets, in its one row, the sites whose points are set in the one row of `found`.
fn sites_in(alloc: Global, places: &[u32], found: &BitRows) -> Result<BitRows, OutOfMemory>
    requires few { length places.now < 2 ^ 32 }
    requires rows { found.now.rows ≡ 1 }
    requires within { All (λ t. t < found.now.columns) places.now }
    ensures { IfOk result (IsOf 1 (length places.now) (IsReachedSite places.now found.now)) }
{
    let mut sites = BitRows::new(alloc, 1, places.len() as u32)?;
    for site in 1..sites.columns() {
        if found.get(0, places[site as usize]) {
            sites.set(0, site);
        }
    }
    Ok(sites)
}

/// Sets all pairs of the sites that are set in the one row.
fn add_pairs(sites: &BitRows, meets: &mut BitRows)
    requires sites { sites.now.rows ≡ 1 }
    requires rows { meets.old.rows ≡ sites.now.columns }
    requires columns { meets.old.columns ≡ sites.now.columns }
    ensures { IsWithPairs sites.now sites.now.columns meets.old meets.new }
{
    for site in 0..sites.columns() {
        if sites.get(0, site) {
            meets.add_common(site, sites, 0, sites, 0);
        }
    }
}
