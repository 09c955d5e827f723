//! The locals that may have different values on different nodes, as far as they are noted.

ghost use Rattle.std.specs.Prelude.{◌≡◌, ◌≢◌, ◌<◌, ◌+◌, ◌↔◌, ℕ, length, IfOk, IsTrue, true, false, Some, Contains};
ghost use Rattle.site_graph.specs.Graph.{kind_at};
ghost use Rattle.site_graph.specs.Bits.{IsSet};
ghost use Rattle.site_graph.specs.declared.point.TheConstants.{NODE_MARK};
ghost use Rattle.phase_map.specs.Uneven.{MainIsCalled};
ghost use Rattle.phase_map.specs.Noting.{MayDiffer, ReadsUneven, AreKnown, WritesBelow, IsCalled, IsNoted, AreNoted, IsBehind};

use sc_base::OutOfMemory;
use site_graph::{BitRows, Flow, NODE_MARK, Point, PointKind};
use std::alloc::Global;

/// What is known of the locals. Those of functions other than `main` may differ from node to node, and if `called`,
/// those of all functions; else those of `main` that are set in the row `noted`.
#[derive(Debug, Drop)]
pub struct Locals {
    pub main: u32,
    pub called: bool,
    pub noted: BitRows,
}

impl Locals {
    /// Whether the local of the function may differ from node to node.
    fn may_differ(&self, function: u32, local: u32) -> bool
        requires { self.now.noted.rows ≡ 1 }
        ensures { IsTrue result ↔ MayDiffer self.now function local }
    {
        self.called || function != self.main || self.is_noted(local)
    }

    /// Whether the local of `main` is noted.
    fn is_noted(&self, local: u32) -> bool
        requires { self.now.noted.rows ≡ 1 }
        ensures { IsTrue result ↔ IsSet self.now.noted 0 local }
    {
        if local >= self.noted.columns() {
            return false;
        }
        self.noted.get(0, local)
    }

    /// Whether what the point reads may differ from node to node.
    pub fn reads_uneven(&self, point: &Point) -> bool
        requires { self.now.noted.rows ≡ 1 }
        ensures { IsTrue result ↔ ReadsUneven self.now point.now }
    {
        for local in point.reads.as_slice() {
            if *local == NODE_MARK || self.may_differ(point.function, *local) {
                return true;
            }
        }
        false
    }
}

/// What is known at first: no local of `splitc_main` is noted.
pub fn known_locals(alloc: Global, flow: &Flow) -> Result<Locals, OutOfMemory>
    ensures { IfOk result (AreKnown flow.now) }
{
    let noted = BitRows::new(alloc, 1, written_end(flow))?;
    Ok(Locals {
        main: flow.points.as_slice()[0].function,
        called: main_is_called(flow),
        noted,
    })
}

/// A number past those of all locals that points write.
fn written_end(flow: &Flow) -> u32
    ensures { WritesBelow flow.now (length flow.now.points) result }
{
    let mut end = 0;
    for point in flow.points.as_slice() {
        end = end.max(past(point.writes));
    }
    end
}

/// The number past that of the local, if there is one and it is not the node mark.
fn past(local: Option<u32>) -> u32
    ensures { (x : ℕ) → local ≡ Some x → x ≢ NODE_MARK → x < result }
{
    match local {
        Some(number) => number.saturating_add(1),
        None => 0,
    }
}

/// Whether some call leads to a point to which Start leads too.
fn main_is_called(flow: &Flow) -> bool
    ensures { IsTrue result ↔ MainIsCalled flow.now }
{
    for edge in flow.edges.as_slice() {
        if edge.from == 0 && is_called(flow, edge.to) {
            return true;
        }
    }
    false
}

/// Whether an edge leads from a call to the point.
fn is_called(flow: &Flow, point: u32) -> bool
    ensures { IsTrue result ↔ IsCalled flow.now point }
{
    for edge in flow.edges.as_slice() {
        if edge.to == point && is_call(flow, edge.from) {
            return true;
        }
    }
    false
}

/// Whether the point is a call.
fn is_call(flow: &Flow, point: u32) -> bool
    requires { point < length flow.now.points }
    ensures { IsTrue result ↔ (kind_at flow.now point ≡ PointKind.Call) }
{
    flow.points.as_slice()[point as usize].kind == PointKind::Call
}

/// Notes the locals that points set to values that may differ, by what they read or because they are set in the row of
/// `behind`. Tells whether one was not noted before.
pub fn note_writes(flow: &Flow, behind: &BitRows, locals: &mut Locals) -> bool
    requires known { AreKnown flow.now locals.old }
    requires rows { behind.now.rows ≡ 1 }
    requires columns { behind.now.columns ≡ length flow.now.points }
    requires behind { IsBehind flow.now behind.now }
    ensures { AreNoted flow.now behind.now (length flow.now.points) locals.old locals.new result }
{
    let mut gains = false;
    for (at, point) in flow.points.as_slice().iter().enumerate() {
        let parted = behind.get(0, at as u32);
        gains |= note_write(point, parted, locals);
    }
    gains
}

/// Notes the local that the point sets if its value may differ, by what the point reads or because nodes may have
/// parted before it. Tells whether it was not noted before.
fn note_write(point: &Point, parted: bool, locals: &mut Locals) -> bool
    requires rows { locals.old.noted.rows ≡ 1 }
    requires room { (x : ℕ) → point.now.writes ≡ Some x → x ≢ NODE_MARK → x < locals.old.noted.columns }
    ensures { IsNoted point.now parted locals.old locals.new result }
{
    let Some(local) = point.writes else {
        return false;
    };
    if local == NODE_MARK || locals.may_differ(point.function, local) {
        return false;
    }
    let sets = parted || locals.reads_uneven(point);
    if sets {
        locals.noted.set(0, local);
    }
    sets
}
