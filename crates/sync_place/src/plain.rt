//! The plan that waits directly behind each access.

ghost use Rattle.std.specs.Prelude.{◌≡◌, ◌<◌, ◌+◌, length, IfOk};
ghost use Rattle.site_graph.specs.Plans.{IsPlainPlan};
ghost use Rattle.sync_place.specs.Plain.{FirstsFollowNoAccess, AreBehind, IsMarkedBehind};

use crate::demanding::blocking_at;
use crate::waiting::waits;
use sc_base::OutOfMemory;
use site_graph::{BitRows, Edge, Flow, Plan};
use sqlite_items::Items;
use std::alloc::Global;

/// The plan in which each point waits for the blocking sites from whose accesses an edge leads to it, and no write is
/// sent one-way.
pub fn plain_plan(alloc: Global, flow: &Flow) -> Result<Plan, OutOfMemory>
    requires { FirstsFollowNoAccess flow.now }
    ensures { IfOk result (IsPlainPlan flow.now) }
{
    let behind = behind_accesses(alloc, flow)?;
    let Ok(marks) = vec![in alloc; false; flow.sites.as_slice().len() + 1] else {
        return Err(OutOfMemory);
    };
    let waits = waits(alloc, flow, &behind, &marks)?;
    Ok(Plan {
        waits,
        oneway: Items::new(alloc),
    })
}

/// Which points stand directly behind the accesses of which blocking sites.
fn behind_accesses(alloc: Global, flow: &Flow) -> Result<BitRows, OutOfMemory>
    ensures { IfOk result (AreBehind flow.now flow.now.edges) }
{
    let rows = flow.sites.as_slice().len() as u32 + 1;
    let mut behind = BitRows::new(alloc, rows, flow.points.as_slice().len() as u32)?;
    for edge in flow.edges.as_slice() {
        mark_behind(flow, *edge, &mut behind);
    }
    Ok(behind)
}

/// Sets the site from whose access the edge leads, if it is blocking, in the column of the point to which it leads.
fn mark_behind(flow: &Flow, edge: Edge, behind: &mut BitRows)
    requires from { edge.from < length flow.now.points }
    requires to { edge.to < behind.old.columns }
    requires rows { behind.old.rows ≡ length flow.now.sites + 1 }
    ensures { IsMarkedBehind flow.now edge behind.old behind.new }
{
    let point = &flow.points.as_slice()[edge.from as usize];
    if let Some(blocking) = blocking_at(flow, point) {
        behind.set(blocking.site, edge.to);
    }
}
