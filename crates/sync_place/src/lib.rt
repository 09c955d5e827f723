//! Where code waits for its accesses, and which of its writes go one-way.
#![tactic(auto)]

ghost use Rattle.std.specs.Prelude.{◌≡◌, ◌+◌, length, IfOk};
ghost use Rattle.sync_place.specs.Placed.{IsPlacedPlan, IsEarlyPlan};
ghost use Rattle.sync_place.specs.Demanding.{AreFirst};

pub mod demanding;
pub mod laws;
pub mod plain;
pub mod waiting;

use demanding::demand;
pub use laws::{plans_are_of_order, plans_are_plans, plans_wait_in_time};
use pending_flow::pending;
pub use plain::plain_plan;
use sc_base::OutOfMemory;
use site_graph::{BitRows, Flow, Plan};
use sqlite_items::Items;
use std::alloc::Global;
use waiting::{marked, one_way_marks, waits};

/// The plan that waits for a site at each of its first demands, but for writes that only barriers demand, which go
/// one-way. `delays` are rows over the flow's sites.
pub fn place(alloc: Global, flow: &Flow, delays: &BitRows) -> Result<Plan, OutOfMemory>
    requires rows { delays.now.rows ≡ length flow.now.sites + 1 }
    requires columns { delays.now.columns ≡ length flow.now.sites + 1 }
    ensures { IfOk result (IsPlacedPlan flow.now delays.now) }
{
    let first = first_demands(alloc, flow, delays)?;
    let marks = one_way_marks(alloc, flow, &first)?;
    let waits = waits(alloc, flow, &first, &marks)?;
    let oneway = marked(alloc, &marks)?;
    Ok(Plan { waits, oneway })
}

/// The plan that waits for each site at each of its first demands, and in which no write goes one-way.
pub fn place_early(alloc: Global, flow: &Flow, delays: &BitRows) -> Result<Plan, OutOfMemory>
    requires rows { delays.now.rows ≡ length flow.now.sites + 1 }
    requires columns { delays.now.columns ≡ length flow.now.sites + 1 }
    ensures { IfOk result (IsEarlyPlan flow.now delays.now) }
{
    let first = first_demands(alloc, flow, delays)?;
    let Ok(marks) = vec![in alloc; false; flow.sites.as_slice().len() + 1] else {
        return Err(OutOfMemory);
    };
    let waits = waits(alloc, flow, &first, &marks)?;
    Ok(Plan {
        waits,
        oneway: Items::new(alloc),
    })
}

/// The first demands of each site: rows are sites, and columns are points.
fn first_demands(alloc: Global, flow: &Flow, delays: &BitRows) -> Result<BitRows, OutOfMemory>
    requires rows { delays.now.rows ≡ length flow.now.sites + 1 }
    requires columns { delays.now.columns ≡ length flow.now.sites + 1 }
    ensures { IfOk result (AreFirst flow.now delays.now) }
{
    let demand = demand(alloc, flow, delays)?;
    let first = pending(alloc, flow, &demand)?;
    Ok(first)
}
