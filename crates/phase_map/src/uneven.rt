//! The points at which nodes may part.

ghost use Rattle.std.specs.Prelude.{◌≡◌, ◌<◌, ◌+◌, ◌↔◌, ℕ, length, All, IfOk, IsTrue, true, Contains};
ghost use Rattle.site_graph.specs.Graph as graph;
ghost use Rattle.site_graph.specs.Bits.{IsOf};
ghost use Rattle.site_graph.specs.Kept.{IsPointOf};
ghost use Rattle.site_graph.specs.Reached.{AreFirsts};
ghost use Rattle.phase_map.specs.Uneven.{Branches, UnevenPoint, IsPoint};
ghost use Rattle.phase_map.specs.Noting.{AreBarriers, AreKnown, ArePartings, PartsBy, PointParts};

use crate::noting::{Locals, known_locals, note_writes};
use sc_base::OutOfMemory;
use site_graph::{BitRows, Flow, Point, PointKind, first_edges, search_any};
use std::alloc::Global;

/// The points that branch, and behind which nodes may go on differently.
pub fn uneven_points(
    alloc: Global,
    flow: &Flow,
    firsts: &[usize],
    barriers: &BitRows,
) -> Result<Vec<u32>, OutOfMemory>
    requires firsts { AreFirsts flow.now firsts.now }
    requires barriers { AreBarriers flow.now barriers.now }
    ensures within { IfOk result (λ v. All (IsPointOf flow.now) v.items) }
    ensures exact { IfOk result (λ v. (t : ℕ) → Contains v.items t ↔ UnevenPoint flow.now t) }
{
    let mut locals = known_locals(alloc, flow)?;
    loop {
        let partings = partings(alloc, flow, firsts, &locals)?;
        let behind = search_any(alloc, flow, firsts, &partings, barriers, 0)?;
        if !note_writes(flow, &behind, &mut locals) {
            return Ok(partings);
        }
    }
}

/// The barriers of the flow, in one row.
pub fn barriers(alloc: Global, flow: &Flow) -> Result<BitRows, OutOfMemory>
    ensures { IfOk result (AreBarriers flow.now) }
{
    let points = flow.points.as_slice();
    let mut row = BitRows::new(alloc, 1, points.len() as u32)?;
    for (at, point) in points.iter().enumerate() {
        if point.kind.is_barrier() {
            row.set(0, at as u32);
        }
    }
    Ok(row)
}

/// The points that branch, and behind which nodes may go on differently as far as it is known of the locals.
fn partings(
    alloc: Global,
    flow: &Flow,
    firsts: &[usize],
    locals: &Locals,
) -> Result<Vec<u32>, OutOfMemory>
    requires firsts { AreFirsts flow.now firsts.now }
    requires noted { locals.now.noted.rows ≡ 1 }
    ensures { IfOk result (λ v. ArePartings flow.now locals.now (length flow.now.points) v.items) }
{
    let mut all = Vec::new(alloc);
    for (at, point) in flow.points.as_slice().iter().enumerate() {
        if branches(flow, firsts, at) && parts(point, locals) {
            let Ok(()) = all.push(at as u32) else {
                return Err(OutOfMemory);
            };
        }
    }
    Ok(all)
}

/// Whether two edges or more lead from the point.
fn branches(flow: &Flow, firsts: &[usize], at: usize) -> bool
    requires firsts { AreFirsts flow.now firsts.now }
    requires at { at < length flow.now.points }
    ensures { IsTrue result ↔ Branches flow.now at }
{
    // Read for the proof alone, which learns that the edges rise.
    let _edges = flow.edges.as_slice();
    firsts[at + 1].saturating_sub(firsts[at]) >= 2
}

/// Whether nodes may go on differently from the point, if it branches.
fn parts(point: &Point, locals: &Locals) -> bool
    requires { locals.now.noted.rows ≡ 1 }
    ensures { IsTrue result ↔ PointParts locals.now point.now }
{
    point.kind == PointKind::Return || locals.reads_uneven(point)
}
