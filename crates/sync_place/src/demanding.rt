//! Which points demand which sites.

ghost use Rattle.std.specs.Prelude.{◌≡◌, ◌<◌, ◌+◌, ◌↔◌, ◌⊎◌, ℕ, length, All, IfOk, IsTrue, true, Contains};
ghost use Rattle.site_graph.specs.Kept.{IsSiteOf};
ghost use Rattle.site_graph.specs.Graph as graph;
ghost use Rattle.sync_place.specs.Demanding.{AreBlocking, IsBlockingOf, AreDemands, PointDemands, IsMarked, IsFilledAt, Delayed};

use sc_base::{CopyMode, OutOfMemory};
use site_graph::{BitRows, Flow, Point, PointKind, SiteKind};
use std::alloc::Global;

/// A blocking site, with the local that it fills and the function of its point.
#[derive(Clone, Copy, Debug, PartialEq, Eq)]
pub struct Blocking {
    pub site: u32,
    pub fills: Option<u32>,
    pub function: u32,
}

/// Which points demand which sites: rows are sites, and columns are points.
pub fn demand(alloc: Global, flow: &Flow, delays: &BitRows) -> Result<BitRows, OutOfMemory>
    requires rows { delays.now.rows ≡ length flow.now.sites + 1 }
    requires columns { delays.now.columns ≡ length flow.now.sites + 1 }
    ensures { IfOk result (AreDemands flow.now delays.now) }
{
    let sites = blocking_sites(alloc, flow)?;
    let points = flow.points.as_slice();
    let mut demand = BitRows::new(alloc, delays.rows(), points.len() as u32)?;
    for (at, point) in points.iter().enumerate() {
        mark_demands(point, at as u32, &sites, delays, &mut demand);
    }
    Ok(demand)
}

/// The blocking sites, in the order of their points.
fn blocking_sites(alloc: Global, flow: &Flow) -> Result<Vec<Blocking>, OutOfMemory>
    ensures { IfOk result (λ v. AreBlocking flow.now (length flow.now.points) v.items) }
{
    let mut sites = Vec::new(alloc);
    for point in flow.points.as_slice() {
        if let Some(site) = blocking_at(flow, point) {
            let Ok(()) = sites.push(site) else {
                return Err(OutOfMemory);
            };
        }
    }
    Ok(sites)
}

/// The blocking site that the point accesses, if it does.
pub fn blocking_at(flow: &Flow, point: &Point) -> Option<Blocking>
    requires { (number : ℕ) → point.now.kind ≡ PointKind.Access number → IsSiteOf flow.now number }
    ensures { IsBlockingOf flow.now point.now result }
{
    let PointKind::Access(number) = point.kind else {
        return None;
    };
    let site = flow.sites.as_slice()[number as usize - 1];
    if !is_blocking(site.kind) {
        return None;
    }
    Some(Blocking {
        site: number,
        fills: site.fills,
        function: point.function,
    })
}

/// Whether the access is over, in the source, before the node's next step.
fn is_blocking(kind: SiteKind) -> bool
    ensures { result ≡ graph.is_blocking kind }
{
    matches!(
        kind,
        SiteKind::Read | SiteKind::Write | SiteKind::Copy(CopyMode::Blocking)
    )
}

/// Whether the nodes wait there for each other.
pub fn is_barrier(kind: PointKind) -> bool
    ensures { result ≡ graph.is_barrier kind }
{
    matches!(kind, PointKind::Barrier | PointKind::StoreSync)
}

/// Sets, in the column of the point, the sites that it demands.
fn mark_demands(point: &Point, at: u32, sites: &[Blocking], delays: &BitRows, demand: &mut BitRows)
    requires access { (number : ℕ) → point.now.kind ≡ PointKind.Access number → number < delays.now.columns }
    requires at { at < demand.old.columns }
    requires sites { All (λ s. s.site < delays.now.rows) sites.now }
    requires rows { demand.old.rows ≡ delays.now.rows }
    ensures { IsMarked point.now at sites.now (length sites.now) delays.now demand.old demand.new }
{
    for site in sites {
        if demands(point, site, delays) {
            demand.set(site.site, at);
        }
    }
}

/// Whether the access of the site has to be over when the point is begun.
fn demands(point: &Point, site: &Blocking, delays: &BitRows) -> bool
    requires access { (number : ℕ) → point.now.kind ≡ PointKind.Access number → number < delays.now.columns }
    requires site { site.now.site < delays.now.rows }
    ensures { IsTrue result ↔ PointDemands point.now site.now delays.now }
{
    is_barrier(point.kind)
        || is_delayed(point.kind, site.site, delays)
        || has(point.takes.as_slice(), site.site)
        || is_filled_at(point, site)
}

/// Whether there is a delay from the site to the one that a point of this kind accesses.
fn is_delayed(kind: PointKind, site: u32, delays: &BitRows) -> bool
    requires access { (number : ℕ) → kind ≡ PointKind.Access number → number < delays.now.columns }
    requires site { site < delays.now.rows }
    ensures { IsTrue result ↔ Delayed kind site delays.now }
{
    match kind {
        PointKind::Access(number) => delays.get(site, number),
        _ => false,
    }
}

/// Whether the point is in the site's function, and reads or writes the local that the site fills, or returns.
fn is_filled_at(point: &Point, site: &Blocking) -> bool
    ensures { IsTrue result ↔ IsFilledAt point.now site.now }
{
    match site.fills {
        Some(local) if site.function == point.function => {
            point.kind == PointKind::Return || names(point, local)
        }
        _ => false,
    }
}

/// Whether the point reads or writes the local.
fn names(point: &Point, local: u32) -> bool
    ensures { IsTrue result ↔ (Contains point.now.reads local ⊎ (point.now.writes ≡ Some local)) }
{
    point.writes == Some(local) || has(point.reads.as_slice(), local)
}

/// Whether the number is in the list.
fn has(list: &[u32], number: u32) -> bool
    ensures { IsTrue result ↔ Contains list.now number }
{
    list.contains(&number)
}
