//! Flows from their lists.

ghost use Rattle.std.specs.Prelude.{◌≡◌, ◌↔◌, ℕ, ◌+◌, ◌^◌, ◌<◌, length, ltb, All, IsTrue, MatchOption};
ghost use Rattle.site_graph.specs.Kept.{IsFlow};
ghost use Rattle.site_graph.specs.Made.{graph_of, AreKept, AreCounted, ArePoints, IsPoint, StartsAt, IsOneOf, AccessWithin, EachHasOne, HasOne, AreEdges};
ghost use Rattle.site_graph.specs.Rising.{IsRising, edge_before};

use crate::flow::{Edge, Edges, Flow, ObjectList};
use crate::point::{Point, PointKind, Points};
use crate::site::Sites;

impl Flow {
    /// The flow of these lists. None where they break what every flow keeps.
    pub fn new(points: Points, edges: Edges, sites: Sites, exposed: ObjectList) -> Option<Flow>
        ensures { MatchOption result (IsFlow (graph_of points edges sites exposed) → ⊥) (λ f. f ≡ graph_of points edges sites exposed) }
    {
        if !are_kept(
            points.as_slice(),
            edges.as_slice(),
            sites.len(),
            exposed.as_slice(),
        ) {
            return None;
        }
        Some(Flow {
            points,
            edges,
            sites,
            exposed,
        })
    }
}

/// Whether the lists make a flow, where there are so many sites.
fn are_kept(points: &[Point], edges: &[Edge], sites: usize, exposed: &[u32]) -> bool
    ensures { IsTrue result ↔ AreKept points.now edges.now sites exposed.now }
{
    if !are_counted(points.len(), sites) {
        return false;
    }
    let points_hold = are_points(points, sites);
    let sites_hold = each_has_one(points, sites);
    let edges_hold = are_edges(edges, points.len());
    points_hold & sites_hold & edges_hold & rises(exposed)
}

fn are_counted(points: usize, sites: usize) -> bool
    ensures { IsTrue result ↔ AreCounted points sites }
{
    points < 1 << 32 && sites < (1 << 32) - 1 && 0 < points
}

fn are_points(points: &[Point], sites: usize) -> bool
    ensures { IsTrue result ↔ ArePoints points.now (length points.now) sites }
{
    for (at, point) in points.iter().enumerate() {
        if !is_point(point, at, sites) {
            return false;
        }
    }
    true
}

fn is_point(point: &Point, at: usize, sites: usize) -> bool
    ensures { IsTrue result ↔ IsPoint point.now at sites }
{
    starts_at(point.kind, at)
        && are_sites(point.takes.as_slice(), sites)
        && rises(point.takes.as_slice())
        && rises(point.reads.as_slice())
        && is_access_within(point.kind, sites)
}

/// Whether it is Start exactly if it is point 0.
fn starts_at(kind: PointKind, at: usize) -> bool
    ensures { IsTrue result ↔ StartsAt kind at }
{
    (kind == PointKind::Start) == (at == 0)
}

fn are_sites(list: &[u32], sites: usize) -> bool
    ensures { IsTrue result ↔ All (IsOneOf sites) list.now }
{
    list.iter().all(|site| is_one_of(*site, sites))
}

fn is_one_of(site: u32, sites: usize) -> bool
    ensures { IsTrue result ↔ IsOneOf sites site }
{
    1 <= site && site as usize <= sites
}

fn is_access_within(kind: PointKind, sites: usize) -> bool
    ensures { IsTrue result ↔ AccessWithin kind sites }
{
    match kind {
        PointKind::Access(number) => is_one_of(number, sites),
        _ => true,
    }
}

fn rises(list: &[u32]) -> bool
    ensures { IsTrue result ↔ IsRising ltb list.now }
{
    for at in 1..list.len() {
        if list[at - 1] >= list[at] {
            return false;
        }
    }
    true
}

fn each_has_one(points: &[Point], sites: usize) -> bool
    requires { sites + 1 < 2 ^ 32 }
    ensures { IsTrue result ↔ EachHasOne points.now sites }
{
    for before in 0..sites as u32 {
        if !has_one(points, before + 1) {
            return false;
        }
    }
    true
}

/// Whether one point, and no second one, is the access of the site.
fn has_one(points: &[Point], number: u32) -> bool
    ensures { IsTrue result ↔ HasOne points.now number (length points.now) }
{
    let mut found = false;
    for point in points {
        let here = accesses(point.kind, number);
        let twice = found & here;
        if twice {
            return false;
        }
        found |= here;
    }
    found
}

fn accesses(kind: PointKind, number: u32) -> bool
    ensures { IsTrue result ↔ (kind ≡ PointKind.Access number) }
{
    kind == PointKind::Access(number)
}

fn are_edges(edges: &[Edge], points: usize) -> bool
    ensures { IsTrue result ↔ AreEdges edges.now points }
{
    edges.iter().all(|edge| is_within(*edge, points)) && edges_rise(edges)
}

fn is_within(edge: Edge, points: usize) -> bool
    ensures { IsTrue result ↔ ((edge.from < points) × (edge.to < points)) }
{
    (edge.from as usize) < points && (edge.to as usize) < points
}

fn edges_rise(edges: &[Edge]) -> bool
    ensures { IsTrue result ↔ IsRising edge_before edges.now }
{
    for at in 1..edges.len() {
        if !is_before(edges[at - 1], edges[at]) {
            return false;
        }
    }
    true
}

fn is_before(a: Edge, b: Edge) -> bool
    ensures { result ≡ edge_before a b }
{
    a.from < b.from || (a.from == b.from && a.to < b.to)
}
