//! The phases of a flow.

ghost use Rattle.std.specs.Prelude.{◌≡◌, IfOk, false};
ghost use Rattle.phase_map.specs.Meeting.{ArePhases, AllMeet};

use crate::aligning::{barriers_ahead, is_aligned};
use crate::meeting::{all_meet, met};
use crate::uneven::{barriers, uneven_points};
use sc_base::OutOfMemory;
use site_graph::{Flow, Phases, first_edges};
use std::alloc::Global;

/// Whether the flow is aligned: from each point at which nodes may part, at most one barrier is reached with none
/// between. And the pairs of sites, which are numbered from 1, at which two nodes may stand between the same two
/// releases; in a flow that is not aligned, all pairs. The first row and column are of no site.
pub fn phases(alloc: Global, flow: &Flow) -> Result<Phases, OutOfMemory>
    ensures { IfOk result (λ p. ArePhases flow.now p.aligned p.meets) }
{
    let firsts = first_edges(alloc, flow)?;
    let barriers = barriers(alloc, flow)?;
    let uneven = uneven_points(alloc, flow, &firsts, &barriers)?;
    let ahead = barriers_ahead(alloc, flow)?;
    let aligned = is_aligned(flow, &ahead, &uneven);
    let meets = if aligned {
        met(alloc, flow, &firsts, &barriers)?
    } else {
        all_meet(alloc, flow)?
    };
    Ok(Phases { aligned, meets })
}

/// The phases of a flow of which nothing is known: it counts as not aligned, and all sites meet.
pub fn phases_early(alloc: Global, flow: &Flow) -> Result<Phases, OutOfMemory>
    ensures { IfOk result (λ p. (p.aligned ≡ false) × AllMeet flow.now p.meets) }
{
    let meets = all_meet(alloc, flow)?;
    Ok(Phases {
        aligned: false,
        meets,
    })
}
