//! Whether all nodes pass the same barriers in step.

ghost use Rattle.std.specs.Prelude.{◌≡◌, ◌<◌, ◌↔◌, ℕ, length, All, IfOk, IsTrue, Contains};
ghost use Rattle.site_graph.specs.Ways.{Goes};
ghost use Rattle.phase_map.specs.Uneven.{UnevenPoint};
ghost use Rattle.phase_map.specs.Meeting.{Aligned};
ghost use Rattle.phase_map.specs.Aligning.{AreAhead, AreSound, IsSwept, IsPassed, joined_of};

use sc_base::OutOfMemory;
use site_graph::{Edge, Flow};
use std::alloc::Global;

/// The barriers to which a point leads with none between.
#[derive(Clone, Copy, Debug, PartialEq, Eq)]
pub enum Ahead {
    Nothing,
    /// One barrier, the point with this number.
    One(u32),
    /// At least two.
    More,
}

impl Ahead {
    /// These barriers and those.
    fn joined(self, other: Ahead) -> Ahead
        ensures { result ≡ joined_of self other }
    {
        match (self, other) {
            (Ahead::Nothing, _) => other,
            (_, Ahead::Nothing) => self,
            (Ahead::One(a), Ahead::One(b)) if a == b => self,
            _ => Ahead::More,
        }
    }

    /// Whether the others add nothing to these.
    fn holds_all(self, other: Ahead) -> bool
        ensures { IsTrue result ↔ (joined_of self other ≡ self) }
    {
        self.joined(other) == self
    }

    /// Whether there are at least two.
    fn is_more(self) -> bool
        ensures { IsTrue result ↔ (self ≡ Ahead.More) }
    {
        self == Ahead::More
    }
}

/// For each point the barriers to which it leads with none between.
pub fn barriers_ahead(alloc: Global, flow: &Flow) -> Result<Vec<Ahead>, OutOfMemory>
    ensures { IfOk result (λ v. AreAhead flow.now v.items) }
{
    let Ok(mut ahead) = vec![in alloc; Ahead::Nothing; flow.points.as_slice().len()] else {
        return Err(OutOfMemory);
    };
    while sweep(flow, &mut ahead) {}
    Ok(ahead)
}

/// Hands on, along each edge, the barriers ahead of its second point to its first, and tells whether anything changed.
/// The last edges come first, since most lead to higher points.
fn sweep(flow: &Flow, ahead: &mut [Ahead]) -> bool
    requires points { length ahead.old ≡ length flow.now.points }
    requires sound { AreSound flow.now ahead.old }
    ensures { IsSwept flow.now 0 ahead.old ahead.new result }
{
    let edges = flow.edges.as_slice();
    let mut changed = false;
    for number in (0..edges.len()).rev() {
        changed |= pass_back(flow, edges[number], ahead);
    }
    changed
}

/// Adds the barriers ahead of the edge's second point, or that point if it is one, to those ahead of its first. Tells
/// whether that changed them.
fn pass_back(flow: &Flow, edge: Edge, ahead: &mut [Ahead]) -> bool
    requires points { length ahead.old ≡ length flow.now.points }
    requires from { edge.from < length flow.now.points }
    requires to { edge.to < length flow.now.points }
    ensures { IsPassed flow.now edge ahead.old ahead.new result }
{
    let seen = if flow.points.as_slice()[edge.to as usize].kind.is_barrier() {
        Ahead::One(edge.to)
    } else {
        ahead[edge.to as usize]
    };
    let before = ahead[edge.from as usize];
    if before.holds_all(seen) {
        return false;
    }
    ahead[edge.from as usize] = before.joined(seen);
    true
}

/// Whether at most one barrier is ahead of each of the points.
pub fn is_aligned(flow: &Flow, ahead: &[Ahead], uneven: &[u32]) -> bool
    requires ahead { AreAhead flow.now ahead.now }
    requires within { All (λ t. t < length ahead.now) uneven.now }
    requires uneven { (t : ℕ) → Contains uneven.now t ↔ UnevenPoint flow.now t }
    ensures { IsTrue result ↔ Aligned flow.now }
{
    for point in uneven {
        if ahead[*point as usize].is_more() {
            return false;
        }
    }
    true
}
