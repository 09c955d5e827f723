//! Which points are reached from which.

ghost use Rattle.std.specs.Prelude.{◌≡◌, ◌<◌, ◌≤◌, ◌^◌, ℕ, ◌+◌, length, All, IfOk, true, false, slice_index, slice_index_or, []};
ghost use Rattle.std.specs.List.{range_with_len};
ghost use Rattle.site_graph.specs.Bits.{IsOf};
ghost use Rattle.site_graph.specs.Kept.{IsPointOf};
ghost use Rattle.site_graph.specs.Reached.{AreReached, AreReachedFrom, AreReachedFromAny, ReachesBy, AreFirsts};
ghost use Rattle.site_graph.specs.Opened.{IsTarget, IsBegunBefore, IsOpened};
ghost use Rattle.site_graph.specs.Ways.{Goes};
ghost use Rattle.site_graph.specs.declared.flow.Edge.{Edge};

use crate::bit_rows::BitRows;
use crate::flow::{Edge, Flow};
use sc_base::OutOfMemory;
use std::alloc::Global;

/// Sets (a, t) exactly where a path of at least one edge leads from the point a to the point t, and none of its inner
/// points stops. `stops` has one entry for each point.
pub fn reach(alloc: Global, flow: &Flow, stops: &[bool]) -> Result<BitRows, OutOfMemory>
    requires { length stops.now ≡ length flow.now.points }
    ensures { IfOk result (AreReached flow.now stops.now) }
{
    let starts = numbers(alloc, flow.points.as_slice().len() as u32)?;
    reach_from(alloc, flow, &starts, stops)
}

/// Sets (i, t) exactly where a path of at least one edge leads from the i-th of the points `starts`, counted from 0, to the
/// point t, and none of its inner points stops. `stops` has one entry for each point.
pub fn reach_from(
    alloc: Global,
    flow: &Flow,
    starts: &[u32],
    stops: &[bool],
) -> Result<BitRows, OutOfMemory>
    requires few { length starts.now < 2 ^ 32 }
    requires points { All (IsPointOf flow.now) starts.now }
    requires stops { length stops.now ≡ length flow.now.points }
    ensures { IfOk result (AreReachedFrom flow.now starts.now stops.now) }
{
    let points = flow.points.as_slice().len() as u32;
    let firsts = first_edges(alloc, flow)?;
    let stop_row = row_of(alloc, stops)?;
    let mut rows = BitRows::new(alloc, starts.len() as u32, points)?;
    for (row, start) in starts.iter().enumerate() {
        let found = search(alloc, flow, &firsts, *start, &stop_row, 0)?;
        rows.add_common(row as u32, &found, 0, &found, 0);
    }
    Ok(rows)
}

/// Sets, in its one row, exactly the points t to which a path of at least one edge leads from `start`, of whose inner points
/// none is set in the row `stop_row` of `stops`. `firsts` is what `first_edges` gives for the flow.
pub fn search(
    alloc: Global,
    flow: &Flow,
    firsts: &[usize],
    start: u32,
    stops: &BitRows,
    stop_row: u32,
) -> Result<BitRows, OutOfMemory>
    requires firsts { AreFirsts flow.now firsts.now }
    requires start { start < length flow.now.points }
    requires stop_row { stop_row < stops.now.rows }
    requires columns { stops.now.columns ≡ length flow.now.points }
    ensures { IfOk result (IsOf 1 (length flow.now.points) (λ row t. ReachesBy flow.now stops.now stop_row start t)) }
{
    search_any(alloc, flow, firsts, &[start], stops, stop_row)
}

/// Sets, in its one row, exactly the points t to which a path of at least one edge leads from one of the points `starts`,
/// of whose inner points none is set in the row `stop_row` of `stops`. `firsts` is what `first_edges` gives for the flow.
pub fn search_any(
    alloc: Global,
    flow: &Flow,
    firsts: &[usize],
    starts: &[u32],
    stops: &BitRows,
    stop_row: u32,
) -> Result<BitRows, OutOfMemory>
    requires firsts { AreFirsts flow.now firsts.now }
    requires points { All (IsPointOf flow.now) starts.now }
    requires stop_row { stop_row < stops.now.rows }
    requires columns { stops.now.columns ≡ length flow.now.points }
    ensures { IfOk result (AreReachedFromAny flow.now starts.now stops.now stop_row) }
{
    let mut found = BitRows::new(alloc, 1, flow.points.as_slice().len() as u32)?;
    let mut todo = Vec::new(alloc);
    open_from_all(flow, firsts, starts, &mut found, &mut todo)?;
    while let Some(point) = todo.pop() {
        if !stops.get(stop_row, point) {
            open_from(flow, firsts, point, &mut found, &mut todo)?;
        }
    }
    Ok(found)
}

/// For each point, and for one past the last, how many edges lead from lower points.
pub fn first_edges(alloc: Global, flow: &Flow) -> Result<Vec<usize>, OutOfMemory>
    ensures { IfOk result (λ v. AreFirsts flow.now v.items) }
{
    let edges = flow.edges.as_slice();
    let mut firsts = Vec::new(alloc);
    let mut next = 0;
    for point in 0..flow.points.as_slice().len() + 1 {
        next = edges_below(edges, point, next);
        let Ok(()) = firsts.push(next) else {
            return Err(OutOfMemory);
        };
    }
    Ok(firsts)
}

/// The number of the first edge, from this one on, that does not lead from a point below this one.
fn edges_below(edges: &[Edge], point: usize, from: usize) -> usize
    requires { from ≤ length edges.now }
    ensures least { from ≤ result }
    ensures within { result ≤ length edges.now }
    ensures below { (e : ℕ) (d : Edge) → from ≤ e → e < result → (slice_index_or edges.now e d).from < point }
    ensures stop { (d : Edge) → result < length edges.now → point ≤ (slice_index_or edges.now result d).from }
{
    let mut next = from;
    while next < edges.len() && (edges[next].from as usize) < point {
        next += 1;
    }
    next
}

/// Sets the points to which an edge leads from this one, and opens those that were not set before.
fn open_from(
    flow: &Flow,
    firsts: &[usize],
    point: u32,
    found: &mut BitRows,
    todo: &mut Vec<u32>,
) -> Result<(), OutOfMemory>
    requires firsts { AreFirsts flow.now firsts.now }
    requires point { point < length flow.now.points }
    requires row { found.old.rows ≡ 1 }
    requires columns { found.old.columns ≡ length flow.now.points }
    ensures { IfOk result (λ _. IsOpened (Goes flow.now point) found.old found.new todo.old.items todo.new.items) }
{
    let from = firsts[point as usize];
    let to = firsts[point as usize + 1];
    open_targets(flow.edges.as_slice(), from, to, found, todo)?;
    Ok(())
}

/// Sets the points to which an edge leads from one of these, and opens those that were not set before.
fn open_from_all(
    flow: &Flow,
    firsts: &[usize],
    starts: &[u32],
    found: &mut BitRows,
    todo: &mut Vec<u32>,
) -> Result<(), OutOfMemory>
    requires firsts { AreFirsts flow.now firsts.now }
    requires points { All (IsPointOf flow.now) starts.now }
    requires row { found.old.rows ≡ 1 }
    requires columns { found.old.columns ≡ length flow.now.points }
    ensures { IfOk result (λ _. IsOpened (IsBegunBefore flow.now starts.now (length starts.now)) found.old found.new todo.old.items todo.new.items) }
{
    for number in 0..starts.len() {
        let start = starts[number];
        open_from(flow, firsts, start, found, todo)?;
    }
    Ok(())
}

/// Sets the points to which the edges from number `from` to below number `to` lead, and opens those that were not set before.
fn open_targets(
    edges: &[Edge],
    from: usize,
    to: usize,
    found: &mut BitRows,
    todo: &mut Vec<u32>,
) -> Result<(), OutOfMemory>
    requires order { from ≤ to }
    requires edges { to ≤ length edges.now }
    requires row { found.old.rows ≡ 1 }
    requires within { All (λ e. e.to < found.old.columns) edges.now }
    ensures { IfOk result (λ _. IsOpened (IsTarget edges.now from to) found.old found.new todo.old.items todo.new.items) }
{
    for number in from..to {
        let target = edges[number].to;
        open_one(target, found, todo)?;
    }
    Ok(())
}

/// Sets the point, and opens it if it was not set before.
fn open_one(point: u32, found: &mut BitRows, todo: &mut Vec<u32>) -> Result<(), OutOfMemory>
    requires row { found.old.rows ≡ 1 }
    requires within { point < found.old.columns }
    ensures { IfOk result (λ _. IsOpened (λ t. t ≡ point) found.old found.new todo.old.items todo.new.items) }
{
    if found.get(0, point) {
        return Ok(());
    }
    found.set(0, point);
    let Ok(()) = todo.push(point) else {
        return Err(OutOfMemory);
    };
    Ok(())
}

/// A row in which the points that stop are set.
fn row_of(alloc: Global, stops: &[bool]) -> Result<BitRows, OutOfMemory>
    requires { length stops.now < 2 ^ 32 }
    ensures { IfOk result (IsOf 1 (length stops.now) (λ row t. slice_index_or stops.now t false ≡ true)) }
{
    let mut row = BitRows::new(alloc, 1, stops.len() as u32)?;
    for (point, stop) in stops.iter().enumerate() {
        if *stop {
            row.set(0, point as u32);
        }
    }
    Ok(row)
}

/// The numbers below this one.
fn numbers(alloc: Global, end: u32) -> Result<Vec<u32>, OutOfMemory>
    ensures { IfOk result (λ v. v.items ≡ range_with_len 0 end) }
{
    let mut all = Vec::new(alloc);
    for number in 0..end {
        let Ok(()) = all.push(number) else {
            return Err(OutOfMemory);
        };
    }
    Ok(all)
}
